// The merge of a tag list with the elements of a data set: 13, 14, 15, and the stream of the listed elements. (Offset, `least` and index by
// hand, as in `dataset::reading`: list and data set go on each at its own step.)
ghost use Rattle.std.specs.Prelude.{◌≡◌, ◌*◌, ◌/◌, ◌≤◌, length, drop};
ghost use Rattle.answer.specs.Answer as Spec;
ghost use Rattle.stream.specs.TagList.{tags_in, ascending_answer};
ghost use Rattle.stream.specs.Inner.Listed.{ListWalk, next_listed, wanted_behind, stopped_of, merged_of, ended_of};

use crate::keep::Keep;
use crate::writer::OneWritten;
use crate::{tag_list, writer};
use answer::Answer;
use answer::refusal::Refusal;
use dataset::inside::Inside;

// How far list and data set are merged: the index of the tag that is wanted next, which is the position of 13, 14 and 15; and the first of
// these, or the length of the stream so far.
#[derive(Clone, Copy, Debug, PartialEq, Eq)]
pub(crate) struct Listed {
    pub index: usize,
    pub so_far: Result<usize, Answer>,
}

// An element that the walk has passed: its tag, whether it is UN, whether it holds UN, and where its stream ends. What follows it in the data
// set, as in `OneWritten`, is no matter of the merge.
#[derive(Clone, Copy, Debug, PartialEq, Eq)]
pub(crate) struct Passed {
    pub tag: u32,
    pub is_un: bool,
    pub holds_un: bool,
    pub to: usize,
}

// The element that is wanted next.
fn next_listed(list: &[u8], index: usize) -> Keep
    ensures { result ≡ next_listed (tags_in (drop (4 * index) list.now)) }
{
    if list.len() / 4 <= index {
        return Keep::Nothing;
    }
    Keep::Only(tag_list::tag_at(list, index))
}

// The element that is wanted next, behind one of this tag: still the same where that stood before it. The list is read only where it is
// another.
#[tactic(auto, unfolding(crate::specs::Inner::Listed::wanted_behind))]
fn wanted_behind(list: &[u8], keep: Keep, tag: u32, index: usize) -> Keep
    ensures { result ≡ wanted_behind keep tag (tags_in (drop (4 * index) list.now)) }
{
    match keep {
        Keep::Only(wanted) if tag < wanted => keep,
        _ => next_listed(list, index),
    }
}

// A refusal: no tag is wanted any more.
fn stopped(count: usize, why: Refusal, index: usize) -> Listed
    ensures { result ≡ stopped_of count why index }
{
    Listed {
        index: count,
        so_far: Err(why.at(index)),
    }
}

// What is found after one element more, by which element was wanted.
#[tactic(auto, unfolding(crate::specs::Inner::Listed::merged_of))]
fn merged(list: &[u8], keep: Keep, before: Listed, passed: Passed) -> Listed
    requires { before.index ≤ length list.now / 4 }
    ensures { result ≡ merged_of (length list.now / 4) keep before passed }
{
    let count = list.len() / 4;
    let index = before.index;
    let Keep::Only(wanted) = keep else {
        return before;
    };
    if passed.tag < wanted {
        return before;
    }
    if wanted < passed.tag {
        return stopped(count, Refusal::MissingElement, index);
    }
    if passed.is_un {
        return stopped(count, Refusal::IsUn, index);
    }
    if passed.holds_un {
        return stopped(count, Refusal::HoldsUn, index);
    }
    Listed {
        index: index + 1,
        so_far: Ok(passed.to),
    }
}

// What is found at the end of the data set.
fn ended(list: &[u8], before: Listed) -> Result<usize, Answer>
    ensures { result ≡ ended_of (tags_in (drop (4 * before.index) list.now)) before }
{
    if list.len() / 4 <= before.index {
        return before.so_far;
    }
    Err(Refusal::MissingElement.at(before.index))
}

// One walk over the list and the elements of a data set: the data set's first fault, wherever it stands; or the first of 13, 14, 15;
// or the stream, which is written, and its length.
pub(crate) fn walk_list(list: &[u8], part: Inside, out: &mut [u8]) -> Result<usize, Answer>
    requires { ascending_answer 0 0 (tags_in list.now) ≡ Spec.accepted 0 }
    ensures { ListWalk list.now part.entry.d.now part.entry.x result out.old out.new }
{
    let mut at = part.x.from;
    let mut least: u64 = 0;
    let mut found = Listed {
        index: 0,
        so_far: Ok(0),
    };
    let mut keep = next_listed(list, 0);
    loop {
        let to = found.so_far.unwrap_or(0);
        // no `?`, so that the three outcomes stand side by side, each with its goal
        match writer::write_one(&part, at, least, keep, out, to) {
            Err(fault) => return Err(fault),
            Ok(OneWritten::End(_)) => return ended(list, found),
            Ok(
                OneWritten::Element {
                    tag,
                    is_un,
                    holds_un,
                    next,
                    to: past,
                },
            ) => {
                let passed = Passed {
                    tag,
                    is_un,
                    holds_un,
                    to: past,
                };
                found = merged(list, keep, found, passed);
                keep = wanted_behind(list, keep, tag, found.index);
                at = next;
                least = tag as u64 + 1;
            }
        }
    }
}
