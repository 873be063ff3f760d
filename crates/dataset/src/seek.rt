// What stands under two tags of a data set. (The loop's offset and `least` by hand, as in `reading`.)
ghost use Rattle.std.specs.Prelude.{◌≡◌};
ghost use Rattle.dataset.specs.Extent.{elements_in};
ghost use Rattle.dataset.specs.Place.{SoughtIn};
ghost use Rattle.dataset.specs.Inner.Place.{is_there, place_by, or_here};

use crate::extent::Extent;
use crate::inside::Inside;
use crate::reading::OneOutcome;
use crate::{extent, reading, vr};
use answer::Answer;

// What stands under a tag. The definitions `Placed` and `ElementPlaced` have a case for each of the four, for Absent too, so that it is no Option.
#[derive(Clone, Copy, Debug, PartialEq, Eq)]
pub enum Place {
    Absent,
    // a value that is not looked into, from start to end: offsets, as the definitions of a place have them
    Value { vr: u16, start: usize, end: usize },
    // a sequence, by the extent of its items
    Items(Extent),
    // fragments
    Fragments,
}

// What stands under two tags, and the offset past the data set.
#[derive(Clone, Copy, Debug, PartialEq, Eq)]
pub struct Sought {
    pub first: Place,
    pub second: Place,
    pub next: usize,
}

// Whether anything stands there, by the definition's name.
fn is_there(p: Place) -> bool
    ensures { result ≡ is_there p }
{
    !matches!(p, Place::Absent)
}

// An element of a data set in x, by what its reader hands on: where its value ends, and where what follows it starts, differ by the
// delimiter that closes it.
fn place_by(x: Extent, vr: u16, start: usize, end: usize, next: usize) -> Place
    ensures { result ≡ place_by x vr start end next }
{
    if vr != vr::SQ {
        if end != next {
            return Place::Fragments;
        }
        return Place::Value { vr, start, end };
    }
    if end != next {
        return Place::Items(Extent {
            delimited: true,
            from: start,
            ..x
        });
    }
    Place::Items(Extent {
        delimited: false,
        stop: end,
        from: start,
        ..x
    })
}

// What stands under a tag after one element more, of the tag `here`: the first of the tag counts.
fn or_here(before: Place, tag: u32, here: u32, p: Place) -> Place
    ensures { result ≡ or_here before tag here p }
{
    if here != tag {
        return before;
    }
    if is_there(before) {
        return before;
    }
    p
}

// What stands under two tags in a data set, in one walk over it.
fn seek_in(part: Inside, first: u32, second: u32) -> Result<Sought, Answer>
    ensures { SoughtIn part.entry.d.now first second (elements_in part.entry.d.now part.entry.x) result }
{
    let Inside { d, x } = part;
    let mut at = x.from;
    let mut least: u64 = 0;
    let mut one = Place::Absent;
    let mut other = Place::Absent;
    loop {
        match reading::read_one(d, Extent { from: at, ..x }, least)? {
            OneOutcome::End(next) => return Ok(Sought {
                first: one,
                second: other,
                next,
            }),
            OneOutcome::Element {
                tag,
                vr,
                start,
                end,
                next,
            } => {
                let here = place_by(x, vr, start, end, next);
                one = or_here(one, first, tag, here);
                other = or_here(other, second, tag, here);
                at = next;
                least = tag as u64 + 1;
            }
        }
    }
}

// What stands under two tags in the data set in x, or its first fault. A stop past the data, or a start past stop, is 2.
pub fn seek(d: &[u8], x: Extent, first: u32, second: u32) -> Result<Sought, Answer>
    ensures { SoughtIn d.now first second (elements_in d.now x) result }
{
    extent::outside_answer(d, x)?;
    seek_in(Inside { d, x }, first, second)
}
