// List mode: the stream from a list of tags alone, its measuring, and the check of its digest. The public functions give `Answer` and
// `Checked`, of which `measure`, `Streamed` and `CheckedAs` speak; the steps below them are `Result`s. The size and the extent of the whole
// come first in each: two lines, of which a function would be no plainer.
ghost use Rattle.std.specs.Prelude.{◌≡◌};
ghost use Rattle.answer.specs.Step.{step_by};
ghost use Rattle.digest.specs.Message.{limit};
ghost use Rattle.mac.specs.Result.{Streamed, CheckedAs};
ghost use Rattle.mac.specs.ListMode.{measure, stream_call, check_call, result as result_of};
ghost use Rattle.mac.specs.Inner.Calls.{list_call, CallAnswered};

use crate::verdict;
use crate::verdict::Checked;
use answer::Answer;
use dataset::{extent, reading};
use selection::select::Algorithm;
use stream::walk;

// The length of the stream of a list in a data set.
fn measured(list: &[u8], d: &[u8]) -> Result<usize, Answer>
    ensures { result ≡ step_by (measure list.now d.now) }
{
    reading::size_answer(d)?;
    let whole = extent::whole(d.len());
    walk::measure(list, d, whole, None)
}

// Measures the stream of a list in a data set: the answer of a call for the stream with room enough. Nothing is written.
pub fn list_measure(list: &[u8], d: &[u8]) -> Answer
    ensures { result ≡ measure list.now d.now }
{
    Answer::from(measured(list, d))
}

// Writes the stream of a list in a data set, with 9 by the length of the expected digest. Its length.
fn list_call(
    list: &[u8],
    d: &[u8],
    expected: Option<usize>,
    out: &mut [u8],
) -> Result<usize, Answer>
    ensures { CallAnswered (list_call list.now d.now out.old) expected limit out.old result out.new }
{
    reading::size_answer(d)?;
    let whole = extent::whole(d.len());
    let later = verdict::length_answer(Algorithm::Sha256, expected);
    walk::write(list, d, whole, None, later, out)
}

// The stream of a list in a data set, into the output.
pub fn list_stream(list: &[u8], d: &[u8], out: &mut [u8]) -> Answer
    ensures { Streamed (result_of (stream_call list.now d.now out.old)) d.now out.old result out.new }
{
    Answer::from(list_call(list, d, None, out))
}

// The check of the stream's digest: the stream is written into the work buffer.
pub fn list_check(list: &[u8], d: &[u8], expected: &[u8], work: &mut [u8]) -> Checked
    ensures { CheckedAs (result_of (check_call list.now d.now expected.now work.old)) d.now work.old result work.new }
{
    let written = list_call(list, d, Some(expected.len()), work);
    verdict::check_of(Algorithm::Sha256, written, expected, work)
}
