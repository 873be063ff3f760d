// The walk over a data set that reads it, finds UN, measures the stream and writes it, all at once. What does not fit into the output is
// not written: with an empty output the walk measures. The readers of `dataset` go the same way and know no stream, so that the walks are two.
// (Offsets and `least` by hand, as in `dataset::reading`. What each function asks of `to` keeps its own sums within the numbers' range.)
ghost use Rattle.std.specs.Prelude.{◌≡◌, false, ◌++◌, ◌+◌, ◌<◌, ◌≤◌, eqb, length};
ghost use Rattle.std.proofs.lemmas.List.Edits.{sets};
ghost use Rattle.slices.specs.Lists.{between};
ghost use Rattle.dataset.specs.Header.{element_case};
ghost use Rattle.dataset.specs.Vr.{UN};
ghost use Rattle.stream.specs.Stream.{item_tag_bytes};
ghost use Rattle.stream.specs.Inner.Writer.{nested_written, with_offset, HeaderAt, FragmentsWalk, ElementWalk, OneWalk, ElementsWalk, ItemsWalk};
ghost use Rattle.stream.specs.declared.writer.OneWritten.TheVariants as one;

use crate::keep::Keep;
use crate::{keep, output};
use answer::Answer;
use dataset::extent::{Extent, OpenedItem};
use dataset::header::{ElementHeader, ItemHeader};
use dataset::inside::Inside;
use dataset::{extent, header, vr};

// What is read in the place of elements, items or fragments: whether they hold UN, what follows at next in the data set, and at `to` in
// the stream.
#[derive(Clone, Copy, Debug, PartialEq, Eq)]
pub(crate) struct Written {
    pub holds_un: bool,
    pub next: usize,
    pub to: usize,
}

// What is read in an element's place. (The end is a case, as in `ElementHeader`; `Written` is of places that have no tag.)
#[derive(Clone, Copy, Debug, PartialEq, Eq)]
pub(crate) enum OneWritten {
    // the data set ends here; what follows it is at this offset
    End(usize),
    // an element: whether it is UN, whether it holds UN, what follows at next in the data set, and at `to` in the stream
    Element {
        tag: u32,
        is_un: bool,
        holds_un: bool,
        next: usize,
        to: usize,
    },
}

// A value that is not looked into.
fn value_written(tag: u32, vr: u16, next: usize, to: usize) -> OneWritten
    ensures { result ≡ one.Element tag (eqb vr UN) false next to }
{
    OneWritten::Element {
        tag,
        is_un: vr == vr::UN,
        holds_un: false,
        next,
        to,
    }
}

// An element that holds items or fragments, by what the walk over these gives.
fn nested_written(tag: u32, inside: Written) -> OneWritten
    ensures { result ≡ nested_written tag inside }
{
    OneWritten::Element {
        tag,
        is_un: false,
        holds_un: inside.holds_un,
        next: inside.next,
        to: inside.to,
    }
}

// An element that is not kept: the offset in the stream stays.
fn with_offset(one: OneWritten, to: usize) -> OneWritten
    ensures { result ≡ with_offset one to }
{
    match one {
        OneWritten::End(_) => one,
        OneWritten::Element {
            tag,
            is_un,
            holds_un,
            next,
            ..
        } => OneWritten::Element {
            tag,
            is_un,
            holds_un,
            next,
            to,
        },
    }
}

// Writes an item tag and the bytes of a fragment, by their offsets, as `output::copy`.
fn write_fragment(d: &[u8], start: usize, end: usize, out: &mut [u8], to: usize)
    requires { (to + 4 ≤ start + length d.now) × (start ≤ end) × (end ≤ length d.now) }
    ensures { out.new ≡ sets out.old to (item_tag_bytes ++ between d.now start end) }
{
    output::put_item_tag(out, to);
    output::copy(d, start, end, out, to + 4);
}

// Writes the fragments in a part, to their delimiter, and the sequence delimiter, from `onto` on.
fn write_fragments(part: Inside, out: &mut [u8], onto: usize) -> Result<Written, Answer>
    requires { onto + 4 ≤ part.x.from + length part.d.now }
    ensures { FragmentsWalk part.entry.d.now part.entry.x.left part.entry.x.stop part.entry.x.from onto result out.old out.new }
{
    let Inside { d, x } = part;
    let mut at = x.from;
    let mut to = onto;
    loop {
        let rest = Extent {
            delimited: true,
            from: at,
            ..x
        };
        match header::item_header(d, false, rest)? {
            ItemHeader::End(next) => {
                output::put_sequence_delimiter(out, to);
                return Ok(Written {
                    holds_un: false,
                    next,
                    to: to + 4,
                });
            }
            ItemHeader::Item { start, end, .. } => {
                write_fragment(d, start, end, out, to);
                to = to + 4 + (end - start);
                at = end;
            }
        }
    }
}

// Writes the element at `at` in a part, whose header is h.
#[cycle(write_element_write_elements_write_items_write_one)]
fn write_element(
    part: &Inside,
    at: usize,
    h: ElementHeader,
    out: &mut [u8],
    to: usize,
) -> Result<OneWritten, Answer>
    requires { HeaderAt part.now.d.now part.now.x.left part.now.x.stop at (element_case (Ok h)) × (to ≤ at + length part.now.d.now) }
    ensures { ElementWalk part.now.d.now part.now.x.left part.now.x.stop at (element_case (Ok h)) to result out.old out.new }
{
    let Inside { d, x } = *part;
    match h {
        ElementHeader::End(next) => Ok(OneWritten::End(next)),
        ElementHeader::Value { tag, vr, end, .. } => {
            output::copy(d, at, end, out, to);
            Ok(value_written(tag, vr, end, to + (end - at)))
        }
        ElementHeader::Sequence {
            tag,
            start,
            end,
            delimited,
        } => {
            output::copy(d, at, at + 8, out, to);
            let inside = Extent {
                delimited,
                stop: end,
                from: start,
                ..x
            };
            let items = write_items(Inside { d, x: inside }, out, to + 8)?;
            Ok(nested_written(tag, items))
        }
        ElementHeader::Fragments { tag, start } => {
            output::copy(d, at, at + 8, out, to);
            let inside = Extent { from: start, ..x };
            let fragments = write_fragments(Inside { d, x: inside }, out, to + 8)?;
            Ok(nested_written(tag, fragments))
        }
    }
}

// Writes what stands at `at` in an element's place, if it is kept, from `to` on; `least` as of header::header. An element that is
// not kept is walked over all the same, for its faults and for UN inside it. Most elements are values that are not kept: these are passed
// over with no call. `at` stands beside the part, so that none is built for each element.
#[cycle(write_element_write_elements_write_items_write_one)]
pub(crate) fn write_one(
    part: &Inside,
    at: usize,
    least: u64,
    keep: Keep,
    out: &mut [u8],
    to: usize,
) -> Result<OneWritten, Answer>
    requires { to ≤ at + length part.now.d.now }
    ensures { OneWalk keep part.now.d.now part.now.x.delimited part.now.x.left part.now.x.stop at least to result out.old out.new }
{
    let rest = Extent { from: at, ..part.x };
    let h = header::header(part.d, rest, least)?;
    if keep::keeps_header(keep, h) {
        return write_element(part, at, h, out, to);
    }
    let ElementHeader::Value { tag, vr, end, .. } = h else {
        let one = write_element(part, at, h, &mut [], 0)?;
        return Ok(with_offset(one, to));
    };
    Ok(value_written(tag, vr, end, to))
}

// Writes the elements of an item that are not barred.
#[cycle(write_element_write_elements_write_items_write_one)]
fn write_elements(part: Inside, out: &mut [u8], onto: usize) -> Result<Written, Answer>
    requires { onto ≤ part.x.from + length part.d.now }
    ensures { ElementsWalk part.entry.d.now part.entry.x onto result out.old out.new }
{
    let mut at = part.x.from;
    let mut least: u64 = 0;
    let mut found = false;
    let mut to = onto;
    loop {
        match write_one(&part, at, least, Keep::Unbarred, out, to)? {
            OneWritten::End(next) => return Ok(Written {
                holds_un: found,
                next,
                to,
            }),
            OneWritten::Element {
                tag,
                is_un,
                holds_un,
                next,
                to: past,
            } => {
                found |= is_un | holds_un;
                at = next;
                least = tag as u64 + 1;
                to = past;
            }
        }
    }
}

// Writes the items of a sequence, and the sequence delimiter.
#[cycle(write_element_write_elements_write_items_write_one)]
fn write_items(part: Inside, out: &mut [u8], onto: usize) -> Result<Written, Answer>
    requires { (0 < part.x.left) × (onto + 4 ≤ part.x.from + length part.d.now) }
    ensures { ItemsWalk part.entry.d.now part.entry.x onto result out.old out.new }
{
    let Inside { d, x } = part;
    let mut at = x.from;
    let mut found = false;
    let mut to = onto;
    loop {
        match extent::open_item(d, x, at)? {
            OpenedItem::End(next) => {
                output::put_sequence_delimiter(out, to);
                return Ok(Written {
                    holds_un: found,
                    next,
                    to: to + 4,
                });
            }
            OpenedItem::Item(inside) => {
                output::put_item_tag(out, to);
                let item = write_elements(Inside { d, x: inside }, out, to + 4)?;
                found |= item.holds_un;
                at = item.next;
                to = item.to;
            }
        }
    }
}
