// Where a data set, or the items of a sequence, lie; and the extent of one item.
ghost use Rattle.std.specs.Prelude.{◌≡◌};
ghost use Rattle.answer.specs.Step.{test_by};
ghost use Rattle.dataset.specs.Extent.{whole_of, outside_answer, opened_item, opened_case};

use crate::header::ItemHeader;
use crate::{header, reading};
use answer::Answer;
use answer::refusal::Refusal;

// From `from` up to `stop`, or to a delimiter before it (`delimited`); `left` levels of sequences may follow (above 16 as 16). An extent may
// lie anywhere, and each public function answers each (docs/DECISIONS.md, R11); `Inside` is one that lies in the data.
#[derive(Clone, Copy, Debug, PartialEq, Eq)]
pub struct Extent {
    pub delimited: bool,
    pub left: u32,
    pub stop: usize,
    pub from: usize,
}

// What stands in an item's place.
#[derive(Clone, Copy, Debug, PartialEq, Eq)]
pub enum OpenedItem {
    // the items end here; what follows them is at this offset
    End(usize),
    // an item, by the extent of its data set
    Item(Extent),
}

// A whole data set of `size` bytes.
pub fn whole(size: usize) -> Extent
    ensures { result ≡ whole_of size }
{
    Extent {
        delimited: false,
        left: reading::LEVELS,
        stop: size,
        from: 0,
    }
}

// Nothing, or 2 where an extent does not lie inside the data. Whoever walks over a data set in an extent that a caller gives asks this first.
pub fn outside_answer(d: &[u8], x: Extent) -> Result<(), Answer>
    ensures { result ≡ test_by (outside_answer d.now x) }
{
    if header::is_outside(d, x) {
        return Err(Refusal::TooFewBytes.at(x.from));
    }
    Ok(())
}

// What stands at `at` in an item's place, among items that lie in x; or the first fault. From item to item `at` moves on, and x stays.
pub fn open_item(d: &[u8], x: Extent, at: usize) -> Result<OpenedItem, Answer>
    ensures { opened_case result ≡ opened_item d.now x at }
{
    match header::item_header(d, true, Extent { from: at, ..x })? {
        ItemHeader::End(next) => Ok(OpenedItem::End(next)),
        ItemHeader::Item {
            start,
            end,
            delimited,
        } => Ok(OpenedItem::Item(Extent {
            delimited,
            left: reading::deeper(x.left),
            stop: end,
            from: start,
        })),
    }
}
