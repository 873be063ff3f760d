// The lookup of a tag at the top level of a data set. (The loop's offset and `least` by hand, as in `reading`.)
ghost use Rattle.std.specs.Prelude.{◌≡◌, eqb};
ghost use Rattle.dataset.specs.Lookup.{absent, present, found, Lookup};
ghost use Rattle.dataset.specs.Inner.Outcomes.{or_next};

use crate::extent::Extent;
use crate::reading::OneOutcome;
use crate::{extent, reading};
use answer::Answer;

// The reading's answer, whether the tag stands there, and where its value lies. A tag that is absent has a place, too (RULES, 3.2), and C
// takes the three apart: so these are no Option.
#[derive(Clone, Copy, Debug, PartialEq, Eq)]
pub struct Found {
    pub answer: Answer,
    pub present: bool,
    pub start: usize,
    pub length: usize,
}

// The same with the value as a part of the data set. An absent one is the empty part at its end (`Lookup`), so that it is no Option either.
#[derive(Clone, Copy, Debug)]
pub struct FoundPart<'a> {
    pub answer: Answer,
    pub present: bool,
    pub part: &'a [u8],
}

// The empty part at the end of a data set of `size` bytes.
fn absent_at_end(answer: Answer, size: usize) -> Found
    ensures { result ≡ absent answer size }
{
    Found {
        answer,
        present: false,
        start: size,
        length: 0,
    }
}

// The value from start to end.
fn present_at(start: usize, end: usize) -> Found
    ensures { result ≡ present start end }
{
    Found {
        answer: Answer::accepted(0),
        present: true,
        start,
        length: end.saturating_sub(start),
    }
}

// What is found after one element more, of the tag `here`, whose value lies from start to end. (`seek::or_here` does
// the same for a `Place`; one generic function would be no shorter.)
fn or_next(before: Found, wanted: u32, here: u32, start: usize, end: usize) -> Found
    ensures { result ≡ or_next before (eqb here wanted) (present start end) }
{
    if before.present {
        return before;
    }
    if here == wanted {
        return present_at(start, end);
    }
    before
}

// Finds the value of a tag at the top level, and reads the whole data set, once.
pub fn find(d: &[u8], tag: u32) -> Found
    ensures { result ≡ found d.now tag }
{
    let size = d.len();
    if let Err(large) = reading::size_answer(d) {
        return absent_at_end(large, size);
    }
    let x = extent::whole(size);
    let mut at = 0;
    let mut least: u64 = 0;
    let mut before = absent_at_end(Answer::accepted(0), size);
    loop {
        match reading::read_one(d, Extent { from: at, ..x }, least) {
            Err(fault) => return absent_at_end(fault, size),
            Ok(OneOutcome::End(_)) => return before,
            Ok(
                OneOutcome::Element {
                    tag: here,
                    start,
                    end,
                    next,
                    ..
                },
            ) => {
                before = or_next(before, tag, here, start, end);
                at = next;
                least = here as u64 + 1;
            }
        }
    }
}

// The part of the data set that is the value of a tag at the top level; beside it the reading's answer, and whether the tag stands there.
pub fn lookup<'a>(d: &'a [u8], tag: u32) -> FoundPart<'a>
    ensures { Lookup (found d.now tag) d.entry.ref_ptr d.now result.part.ref_ptr result.part.now result.answer result.present }
{
    let f = find(d, tag);
    FoundPart {
        answer: f.answer,
        present: f.present,
        part: &d[f.start..f.start + f.length],
    }
}
