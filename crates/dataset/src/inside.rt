// A data set's bytes with an extent that lies in them: what the readers below a test of the extent take.
ghost use Rattle.dataset.specs.Place.{Lies};

use crate::extent::Extent;

#[derive(Clone, Copy, Debug)]
pub struct Inside<'a> {
    pub d: &'a [u8],
    pub x: Extent,
    pub ghost lies: { Lies d.now x },
}
