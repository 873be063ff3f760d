// The signature item's own elements, which follow the listed ones. (Offsets and `least` by hand, as in `dataset::reading`.)
ghost use Rattle.std.specs.Prelude.{◌≡◌, ◌||◌, ◌+◌, ◌≤◌, length};
ghost use Rattle.stream.specs.TagList.{barred};
ghost use Rattle.stream.specs.Own.{named};
ghost use Rattle.stream.specs.Inner.Own.{OwnWalk, own_keep};

use crate::keep::Keep;
use crate::writer::{OneWritten, Written};
use crate::{tag_list, writer};
use answer::Answer;
use dataset::inside::Inside;
use dataset::tags;

// Whether this is one of the four tags that the signature item leaves out by name.
fn is_named(tag: u32) -> bool
    ensures { result ≡ named tag }
{
    matches!(
        tag,
        tags::CERTIFICATE_OF_SIGNER
            | tags::SIGNATURE_VALUE
            | tags::CERTIFIED_TIMESTAMP_TYPE
            | tags::CERTIFIED_TIMESTAMP
    )
}

// Whether an element is left out, by its tag, whether it is UN and whether it holds UN: facts that the walk has, and no choice of a step.
fn is_left_out(tag: u32, is_un: bool, holds_un: bool) -> bool
    ensures { result ≡ (named tag || (barred tag || (is_un || holds_un))) }
{
    is_named(tag) || tag_list::is_barred(tag) || is_un || holds_un
}

// What the writing walk keeps of the element that the first walk saw.
fn own_keep(seen: OneWritten) -> Keep
    ensures { result ≡ own_keep seen }
{
    match seen {
        OneWritten::End(_) => Keep::Nothing,
        OneWritten::Element {
            tag,
            is_un,
            holds_un,
            ..
        } => {
            if is_left_out(tag, is_un, holds_un) {
                return Keep::Nothing;
            }
            Keep::Only(tag)
        }
    }
}

// Writes the signature item's own elements, from `onto` on. Each is walked over before it is written: only then it is known whether UN
// stands in it, and no UN stands in what is written.
pub(crate) fn write_own(part: Inside, out: &mut [u8], onto: usize) -> Result<Written, Answer>
    requires { onto ≤ part.x.from + length part.d.now }
    ensures { OwnWalk part.entry.d.now part.entry.x onto result out.old out.new }
{
    let mut at = part.x.from;
    let mut least: u64 = 0;
    let mut to = onto;
    loop {
        let seen = writer::write_one(&part, at, least, Keep::Nothing, &mut [], 0)?;
        match writer::write_one(&part, at, least, own_keep(seen), out, to)? {
            OneWritten::End(next) => return Ok(Written {
                holds_un: false,
                next,
                to,
            }),
            OneWritten::Element {
                tag,
                next,
                to: past,
                ..
            } => {
                at = next;
                least = tag as u64 + 1;
                to = past;
            }
        }
    }
}
