// The value that stands in a place.
ghost use Rattle.std.specs.Prelude.{◌≡◌};
ghost use Rattle.selection.specs.Inner.Selection.{ValueAt, MacIdAt};

use dataset::seek::Place;
use dataset::vr;

// The bytes of the value in this place, where it has this VR.
pub(crate) fn value_of(d: &[u8], p: Place, wanted: u16) -> Option<&[u8]>
    ensures { ValueAt wanted d.now p result }
{
    match p {
        Place::Value { vr, start, end } if vr == wanted => d.get(start..end),
        _ => None,
    }
}

// The MAC ID Number in this place.
pub(crate) fn mac_id(d: &[u8], p: Place) -> Option<&[u8]>
    ensures { MacIdAt d.now p result }
{
    value_of(d, p, vr::US).filter(|id| id.len() == 2)
}
