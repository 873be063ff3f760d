// What stands at an offset of a data set, in an element's place or in an item's: the checks of one header, in their order. What is read of a
// header goes from check to check as the parameters that the definitions have, which no struct of some of them is.
ghost use Rattle.std.specs.Prelude.{◌≡◌, ◌+◌, ◌≤◌, length};
ghost use Rattle.dataset.specs.Header.{element_case, item_case, fault_at, outside, bad_length, too_deep, undefined_by, defined_by, value_by, long_at, vr_on_at, ends_at, closed_by, element_at, item_by, item_at};
ghost use Rattle.dataset.specs.Place.{Lies};
ghost use Rattle.dataset.specs.Inner.Header.{end_at};

use crate::extent::Extent;
use crate::vr::Form;
use crate::{bytes, tags, vr};
use answer::Answer;
use answer::refusal::Refusal;

// What stands in an element's place. Its end is no fault, and has an offset, so that it is a case here and not an Err or a None. Start, end and
// delimiter are fields, as the definition's cases have them: an `Extent` has the levels left besides, which no header sets.
#[derive(Clone, Copy, Debug, PartialEq, Eq)]
pub enum ElementHeader {
    // the data set ends here; what follows it is at this offset
    End(usize),
    // a value that is not looked into, from start to end
    Value {
        tag: u32,
        vr: u16,
        start: usize,
        end: usize,
    },
    // items from start on, up to end or to a sequence delimiter before end
    Sequence {
        tag: u32,
        start: usize,
        end: usize,
        delimited: bool,
    },
    // fragments from start on, to a sequence delimiter
    Fragments {
        tag: u32,
        start: usize,
    },
}

// What stands in an item's or a fragment's place.
#[derive(Clone, Copy, Debug, PartialEq, Eq)]
pub enum ItemHeader {
    // the items or fragments end here; what follows them is at this offset
    End(usize),
    // from start up to end, or to an item delimiter before end
    Item {
        start: usize,
        end: usize,
        delimited: bool,
    },
}

// The length FFFFFFFF, as it is coded: the definitions test the number itself (it is odd, too).
const UNDEFINED: usize = 0xFFFFFFFF;

// The answer of a header's refusal, by its number and the offset of the header. README has it; the code asks for one by `Refusal::at`, whose
// clause is the same for each number that there is.
pub fn fault(number: u8, position: usize) -> Answer
    ensures { result ≡ fault_at number position }
{
    Answer::refused(number, position)
}

// A value, or a sequence of defined length.
fn defined_by(tag: u32, vr: u16, start: usize, end: usize) -> ElementHeader
    ensures { element_case (Ok result) ≡ defined_by tag vr start end }
{
    if vr == vr::SQ {
        return ElementHeader::Sequence {
            tag,
            start,
            end,
            delimited: false,
        };
    }
    ElementHeader::Value {
        tag,
        vr,
        start,
        end,
    }
}

// A sequence of undefined length, or fragments. As its definition, it takes the end alone of the extent.
fn undefined_by(tag: u32, vr: u16, stop: usize, start: usize) -> ElementHeader
    ensures { element_case (Ok result) ≡ undefined_by tag vr stop start }
{
    if vr == vr::SQ {
        return ElementHeader::Sequence {
            tag,
            start,
            end: stop,
            delimited: true,
        };
    }
    ElementHeader::Fragments { tag, start }
}

// Whether the length is odd, or undefined on a VR other than SQ and OB.
fn bad_length(vr: u16, len: usize) -> bool
    ensures { result ≡ bad_length vr len }
{
    if len == UNDEFINED {
        return !((vr == vr::SQ) | (vr == vr::OB));
    }
    len % 2 == 1
}

// Whether it is a sequence with no level left.
fn too_deep(vr: u16, left: u32) -> bool
    ensures { result ≡ too_deep vr left }
{
    (vr == vr::SQ) & (left == 0)
}

// The checks of a length and a value that starts at `start`, in the element at x.from: 7, 8 and the last 2.
fn value_by(tag: u32, vr: u16, x: Extent, start: usize, len: usize) -> Result<ElementHeader, Answer>
    requires { start ≤ x.stop }
    ensures { element_case result ≡ value_by tag vr x.left x.stop x.from start len }
{
    if bad_length(vr, len) {
        return Err(Refusal::BadLength.at(x.from));
    }
    if too_deep(vr, x.left) {
        return Err(Refusal::TooDeep.at(x.from));
    }
    if len == UNDEFINED {
        return Ok(undefined_by(tag, vr, x.stop, start));
    }
    if x.stop - start < len {
        return Err(Refusal::TooFewBytes.at(x.from));
    }
    Ok(defined_by(tag, vr, start, start + len))
}

// Whether the extent does not lie inside the data, or ends before it starts.
pub(crate) fn is_outside(d: &[u8], x: Extent) -> bool
    ensures { result ≡ outside d.now x.stop x.from }
{
    (d.len() < x.stop) | (x.stop < x.from)
}

// Whether an extent of defined length ends where it starts.
fn ends_at(x: Extent) -> bool
    ensures { result ≡ ends_at x.delimited x.stop x.from }
{
    !x.delimited & (x.from == x.stop)
}

// Whether the delimiter stands at the start of an extent that it closes, with length 0.
fn closed_by(d: &[u8], delimiter: u32, x: Extent) -> bool
    requires { x.from + 8 ≤ length d.now }
    ensures { result ≡ closed_by d.now delimiter x.delimited x.from }
{
    if !x.delimited {
        return false;
    }
    (bytes::tag_at(d, x.from) == delimiter) & (bytes::number32(d, x.from + 4) == 0)
}

// The checks that come first in every place, at x.from: 2 outside the data; the end of an extent of defined length; 2 where fewer than 8
// bytes are left; the delimiter that is due. The offset of what follows the end, or None where nothing ends here.
fn end_at(d: &[u8], delimiter: u32, x: Extent) -> Result<Option<usize>, Answer>
    ensures { result ≡ end_at d.now delimiter x.delimited x.stop x.from }
{
    let at = x.from;
    if is_outside(d, x) {
        return Err(Refusal::TooFewBytes.at(at));
    }
    if ends_at(x) {
        return Ok(Some(at));
    }
    if x.stop - at < 8 {
        return Err(Refusal::TooFewBytes.at(at));
    }
    if closed_by(d, delimiter, x) {
        return Ok(Some(at + 8));
    }
    Ok(None)
}

// The checks at an element of the long form, from its second test of the bytes left on. (Data set and extent
// are two parameters, as in `vr_on`.)
fn long_form(d: &[u8], tag: u32, vr: u16, x: Extent) -> Result<ElementHeader, Answer>
    requires { Lies d.now x }
    ensures { element_case result ≡ long_at d.now tag vr x.left x.stop x.from }
{
    let at = x.from;
    if x.stop - at < 12 {
        return Err(Refusal::TooFewBytes.at(at));
    }
    if bytes::number16(d, at + 6) != 0 {
        return Err(Refusal::ReservedBytes.at(at));
    }
    let len = bytes::number32(d, at + 8);
    value_by(tag, vr, x, at + 12, len as usize)
}

// The checks at an element from its VR on. Data set and extent are two parameters: an `Inside` would be copied for each element, which makes
// the lookup 6 % slower.
fn vr_on(d: &[u8], tag: u32, x: Extent) -> Result<ElementHeader, Answer>
    requires { (x.from + 8 ≤ x.stop) × (x.stop ≤ length d.now) }
    ensures { element_case result ≡ vr_on_at d.now tag x.left x.stop x.from }
{
    let at = x.from;
    let vr = bytes::vr_at(d, at);
    match vr::form_of(vr) {
        Form::Short => {
            let len = bytes::number16(d, at + 6);
            value_by(tag, vr, x, at + 8, len as usize)
        }
        Form::Long => long_form(d, tag, vr, x),
        Form::Neither => Err(Refusal::UnknownVr.at(at)),
    }
}

// What stands at x.from in an element's place, of a data set whose rest lies in x; or a refusal: the checks at one element, in their order.
// `least` is the least tag that is above the one before, 0 where there is none: the number that `element_at` has. A stop past the data, or a
// start past stop, is 2.
pub fn header(d: &[u8], x: Extent, least: u64) -> Result<ElementHeader, Answer>
    ensures { element_case result ≡ element_at d.now x.delimited x.left x.stop x.from least }
{
    if let Some(next) = end_at(d, tags::ITEM_DELIMITATION_ITEM, x)? {
        return Ok(ElementHeader::End(next));
    }
    let at = x.from;
    if bytes::number16(d, at) == 0xFFFE {
        return Err(Refusal::MisplacedTag.at(at));
    }
    let tag = bytes::tag_at(d, at);
    if (tag as u64) < least {
        return Err(Refusal::TagOrder.at(at));
    }
    vr_on(d, tag, x)
}

// The item or fragment at x.from, by its length. `in_sequence` is a bool, as the definitions `item_by` and `item_at` have it.
fn item_by(in_sequence: bool, x: Extent, start: usize, len: usize) -> Result<ItemHeader, Answer>
    requires { start ≤ x.stop }
    ensures { item_case result ≡ item_by in_sequence x.stop x.from start len }
{
    if len == UNDEFINED {
        if in_sequence {
            return Ok(ItemHeader::Item {
                start,
                end: x.stop,
                delimited: true,
            });
        }
        return Err(Refusal::BadLength.at(x.from));
    }
    if len % 2 == 1 {
        return Err(Refusal::BadLength.at(x.from));
    }
    if x.stop - start < len {
        return Err(Refusal::TooFewBytes.at(x.from));
    }
    Ok(ItemHeader::Item {
        start,
        end: start + len,
        delimited: false,
    })
}

// What stands at x.from in the place of an item of a sequence (`in_sequence`) or of a fragment, where the rest of these lies in x; or a
// refusal. A stop past the data, or a start past stop, is 2.
pub fn item_header(d: &[u8], in_sequence: bool, x: Extent) -> Result<ItemHeader, Answer>
    ensures { item_case result ≡ item_at d.now in_sequence x.delimited x.stop x.from }
{
    if let Some(next) = end_at(d, tags::SEQUENCE_DELIMITATION_ITEM, x)? {
        return Ok(ItemHeader::End(next));
    }
    let at = x.from;
    if bytes::tag_at(d, at) != tags::ITEM {
        return Err(Refusal::MisplacedTag.at(at));
    }
    let len = bytes::number32(d, at + 4);
    item_by(in_sequence, x, at + 8, len as usize)
}
