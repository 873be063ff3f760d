// The stream of a list in a data set, and of a signature item behind it: its measuring, which is 10 to 12, the fault of the reading, 13 to 15
// and the stream's length; then 16 and the writing. A signature item is given by its extent: its own elements follow the listed ones. List
// mode has none.
ghost use Rattle.std.specs.Prelude.{◌≡◌, ◌≤◌, length};
ghost use Rattle.answer.specs.Answer as Spec;
ghost use Rattle.answer.specs.Step.{step_by};
ghost use Rattle.stream.specs.TagList.{tags_in, ascending_answer};
ghost use Rattle.stream.specs.Walk as spec;
ghost use Rattle.stream.specs.Walk.{WrittenAs};
ghost use Rattle.stream.specs.Inner.Walk.{FollowingWalk, StreamWalk};

use crate::{listed, own, tag_list};
use answer::Answer;
use answer::refusal::Refusal;
use dataset::extent;
use dataset::extent::Extent;
use dataset::inside::Inside;

// Writes the own elements of the signature item in x from `to` on, behind the listed ones. `to` counts the stream's bytes, of which the output
// may have no room: where the walk measures it is empty. So a part of the output can't stand for both.
fn write_following(d: &[u8], x: Extent, out: &mut [u8], to: usize) -> Result<usize, Answer>
    requires { to ≤ length d.now }
    ensures { FollowingWalk d.now x to result out.old out.new }
{
    extent::outside_answer(d, x)?;
    let written = own::write_own(Inside { d, x }, out, to)?;
    Ok(written.to)
}

// Writes the listed elements of a data set, and what follows them.
fn write_stream(
    list: &[u8],
    part: Inside,
    item: Option<Extent>,
    out: &mut [u8],
) -> Result<usize, Answer>
    requires { ascending_answer 0 0 (tags_in list.now) ≡ Spec.accepted 0 }
    ensures { StreamWalk list.now part.entry.d.now part.entry.x item result out.old out.new }
{
    let to = listed::walk_list(list, part, out)?;
    match item {
        None => Ok(to),
        Some(inside) => write_following(part.d, inside, out, to),
    }
}

// Measures the stream of a list in the data set in x, and of a signature item: 10 to 12, the fault of the reading, 13 to 15, or the stream's
// length. Nothing is written. An extent outside the data is 2. The size is not tested: `reading::size_answer` comes before.
pub fn measure(list: &[u8], d: &[u8], x: Extent, item: Option<Extent>) -> Result<usize, Answer>
    ensures { result ≡ step_by (spec.measure list.now d.now x item) }
{
    tag_list::list_answer(list)?;
    extent::outside_answer(d, x)?;
    write_stream(list, Inside { d, x }, item, &mut [])
}

// Writes the stream that `measure` measures into the output: what measuring refuses; then what the caller refuses, `later` (9); then 16.
pub fn write(
    list: &[u8],
    d: &[u8],
    x: Extent,
    item: Option<Extent>,
    later: Result<(), Answer>,
    out: &mut [u8],
) -> Result<usize, Answer>
    ensures { WrittenAs list.now d.now x item later out.old result out.new }
{
    let length = measure(list, d, x, item)?;
    // no `?`, so that the caller's refusal has a goal of its own
    if let Err(refusal) = later {
        return Err(refusal);
    }
    if out.len() < length {
        return Err(Refusal::OutputTooShort.at(0));
    }
    write_stream(list, Inside { d, x }, item, out)
}
