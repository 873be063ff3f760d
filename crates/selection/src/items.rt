// The items of the two sequences, by their number or by their MAC ID Number.
ghost use Rattle.std.specs.Prelude.{◌≡◌};
ghost use Rattle.dataset.specs.Extent.{items_in};
ghost use Rattle.dataset.specs.Place.{Lies};
ghost use Rattle.selection.specs.Inner.Selection.{TestsKey, FoundItemIn, FoundItemUnder};

use crate::value;
use dataset::extent::{Extent, OpenedItem};
use dataset::seek::{Place, Sought};
use dataset::{extent, seek, tags};

// By what an item of a sequence is found: its number from 0, or its MAC ID Number.
#[derive(Clone, Copy, Debug, PartialEq, Eq)]
pub(crate) enum ItemKey<'a> {
    Number(u64),
    MacId(&'a [u8]),
}

// An item: its data set, and what stands in it under (0400,0005) and (0400,0020).
#[derive(Clone, Copy, Debug, PartialEq, Eq)]
pub(crate) struct FoundItem {
    pub(crate) inside: Extent,
    pub(crate) id: Place,
    pub(crate) list: Place,
}

// Whether the item with this number from 0, whose MAC ID Number stands in this place, has the key.
fn has_key(d: &[u8], key: ItemKey, index: u64, id: Place) -> bool
    ensures { TestsKey d.now key.entry index id result }
{
    match key {
        ItemKey::Number(number) => index == number,
        ItemKey::MacId(wanted) => {
            value::mac_id(d, id).is_some_and(|other| slices::same(other, wanted))
        }
    }
}

// The first item with the key. A fault cannot occur: `select` has read the data set that they stand in. (That x lies in the data is a premise
// of the promise: the caller has a place, and not what `Inside` asks for.)
fn find_item(d: &[u8], x: Extent, key: ItemKey) -> Option<FoundItem>
    ensures { Lies d.now x → FoundItemIn d.now key.entry 0 (items_in d.now x) result }
{
    // both by hand: an item starts where the seeking in the one before it stopped, and no range of numbers says how many there are
    let mut at = x.from;
    let mut index: u64 = 0;
    while let OpenedItem::Item(inside) = extent::open_item(d, x, at).ok()? {
        let Sought {
            first: id,
            second: list,
            next,
        } = seek::seek(d, inside, tags::MAC_ID_NUMBER, tags::DATA_ELEMENTS_SIGNED).ok()?;
        if has_key(d, key, index, id) {
            return Some(FoundItem { inside, id, list });
        }
        at = next;
        index += 1;
    }
    None
}

// The first item with the key, of what stands under a tag.
pub(crate) fn find_item_under(d: &[u8], p: Place, key: ItemKey) -> Option<FoundItem>
    ensures { FoundItemUnder d.now p key.entry result }
{
    let Place::Items(x) = p else {
        return None;
    };
    find_item(d, x, key)
}
