// The reading of a data set: the first fault from the left, or none. Each header is read once and each offset is passed once,
// so that the cost is linear in the bytes: a reader goes on from where the reader below it stopped. So the loops here, and those that walk
// over elements or items elsewhere, set their offset by hand: an iterator would hand out `Result`s and keep the offset past the end, which
// is what a reader gives back. With it goes `least`, a number as `element_at` has it.
ghost use Rattle.std.specs.Prelude.{◌≡◌, ◌<◌, ◌≤◌};
ghost use Rattle.answer.specs.Step.{test_by};
ghost use Rattle.dataset.specs.Reading.{explicit, fragments_at, one_at, handed_on, one_case, answer_of, size_answer, data_set};
ghost use Rattle.dataset.specs.Reading as spec;
ghost use Rattle.dataset.specs.Header.{element_case, element_at};
ghost use Rattle.dataset.specs.Extent.{elements_in, items_in};
ghost use Rattle.dataset.specs.Inner.Outcomes.{outcome_of, holding_of};

use crate::extent::{Extent, OpenedItem};
use crate::header::{ElementHeader, ItemHeader};
use crate::inside::Inside;
use crate::{extent, header, vr};
use answer::Answer;
use answer::refusal::Refusal;

// How many bytes a data set may have.
const SIZE_LIMIT: usize = 1048576;

// How many levels of sequences may follow at the top.
pub const LEVELS: u32 = 16;

// How many levels are left in the items of a sequence that stands where `left` are; a number above LEVELS counts as LEVELS.
pub fn deeper(left: u32) -> u32
    ensures { result ≡ spec.deeper left }
{
    left.min(LEVELS).saturating_sub(1)
}

// What is read in an element's place. The fields stand in the variant: who asks takes those that it needs.
#[derive(Clone, Copy, Debug, PartialEq, Eq)]
pub enum OneOutcome {
    // the data set ends here; what follows it is at this offset
    End(usize),
    // an element; its value lies from start to end, without a closing delimiter, and what follows it is at next
    Element {
        tag: u32,
        vr: u16,
        start: usize,
        end: usize,
        next: usize,
    },
}

// Reads the fragments in a part, to their delimiter: the first fault, or the offset past them.
fn read_fragments(part: Inside) -> Result<usize, Answer>
    ensures { result ≡ outcome_of (fragments_at explicit part.entry.d.now part.entry.x.left part.entry.x.stop part.entry.x.from) }
{
    let Inside { d, x } = part;
    let mut at = x.from;
    loop {
        match header::item_header(
            d,
            false,
            Extent {
                delimited: true,
                from: at,
                ..x
            },
        )? {
            ItemHeader::End(next) => return Ok(next),
            ItemHeader::Item { end, .. } => at = end,
        }
    }
}

// An element that holds items or fragments, by what its header has and the offset past them: its value ends before a closing delimiter of 8 bytes.
fn holding(tag: u32, vr: u16, start: usize, delimited: bool, next: usize) -> OneOutcome
    requires { 8 ≤ next }
    ensures { result ≡ holding_of tag vr start delimited next }
{
    OneOutcome::Element {
        tag,
        vr,
        start,
        end: if delimited { next - 8 } else { next },
        next,
    }
}

// The header at x.from, as header::header reads it. The call is a function of its own, so that what it needs of the stack is free again while
// the items of a sequence are read: `read_one` stands on the stack once for each level (64 bytes less a level).
fn header_here(d: &[u8], x: Extent, least: u64) -> Result<ElementHeader, Answer>
    ensures { element_case result ≡ element_at d.now x.delimited x.left x.stop x.from least }
{
    header::header(d, x, least)
}

// Reads what stands at x.from in an element's place: its header, and its items or fragments. Parameters as of header::header; a
// stop past the data, or a start past stop, is 2 there.
#[cycle(read_elements_read_items_read_one)]
pub fn read_one(d: &[u8], x: Extent, least: u64) -> Result<OneOutcome, Answer>
    ensures { one_case result ≡ handed_on (one_at explicit d.now x.delimited x.left x.stop x.from least) }
{
    match header_here(d, x, least)? {
        ElementHeader::End(next) => Ok(OneOutcome::End(next)),
        ElementHeader::Value {
            tag,
            vr,
            start,
            end,
        } => Ok(OneOutcome::Element {
            tag,
            vr,
            start,
            end,
            next: end,
        }),
        ElementHeader::Sequence {
            tag,
            start,
            end,
            delimited,
        } => {
            let inside = Extent {
                delimited,
                stop: end,
                from: start,
                ..x
            };
            let next = read_items(Inside { d, x: inside })?;
            Ok(holding(tag, vr::SQ, start, delimited, next))
        }
        ElementHeader::Fragments { tag, start } => {
            let next = read_fragments(Inside {
                d,
                x: Extent { from: start, ..x },
            })?;
            Ok(holding(tag, vr::OB, start, true, next))
        }
    }
}

// Reads the elements of a data set: the first fault, or the offset past them.
#[cycle(read_elements_read_items_read_one)]
fn read_elements(part: Inside) -> Result<usize, Answer>
    ensures { result ≡ outcome_of (elements_in part.entry.d.now part.entry.x) }
{
    let Inside { d, x } = part;
    let mut at = x.from;
    let mut least: u64 = 0;
    loop {
        match read_one(d, Extent { from: at, ..x }, least)? {
            OneOutcome::End(next) => return Ok(next),
            OneOutcome::Element { tag, next, .. } => {
                at = next;
                least = tag as u64 + 1;
            }
        }
    }
}

// Reads the items of a sequence: the first fault, or the offset past them.
#[cycle(read_elements_read_items_read_one)]
fn read_items(part: Inside) -> Result<usize, Answer>
    requires { 0 < part.x.left }
    ensures { result ≡ outcome_of (items_in part.entry.d.now part.entry.x) }
{
    let Inside { d, x } = part;
    let mut at = x.from;
    loop {
        match extent::open_item(d, x, at)? {
            OpenedItem::End(next) => return Ok(next),
            OpenedItem::Item(inside) => at = read_elements(Inside { d, x: inside })?,
        }
    }
}

// Nothing, or 1 where a data set is larger than it may be.
pub fn size_answer(d: &[u8]) -> Result<(), Answer>
    ensures { result ≡ test_by (size_answer d.now) }
{
    if SIZE_LIMIT < d.len() {
        return Err(Refusal::TooLarge.at(0));
    }
    Ok(())
}

// Reads a data set: its first fault from the left, or the offset past it.
fn read_whole(d: &[u8]) -> Result<usize, Answer>
    ensures { result ≡ outcome_of (data_set d.now) }
{
    size_answer(d)?;
    read_elements(Inside {
        d,
        x: extent::whole(d.len()),
    })
}

// The answer of reading a data set: its first fault from the left, or number 0. It is an `Answer`, as README has it.
pub fn read(d: &[u8]) -> Answer
    ensures { result ≡ answer_of (data_set d.now) }
{
    match read_whole(d) {
        Err(fault) => fault,
        Ok(_) => Answer::accepted(0),
    }
}
