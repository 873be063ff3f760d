// Signature mode: the stream of a signature in the data set, its measuring, and the check of its digest. Public functions and steps are as
// in list_mode.
ghost use Rattle.std.specs.Prelude.{◌≡◌, ◌≤◌, length};
ghost use Rattle.answer.specs.Step.{step_by};
ghost use Rattle.digest.specs.Message.{limit};
ghost use Rattle.mac.specs.Result.{Streamed, CheckedAs};
ghost use Rattle.mac.specs.SignatureMode.{measure, stream_call, check_call, result as result_of};
ghost use Rattle.mac.specs.Inner.Calls.{signature_call, CallAnswered, SignatureSelected, SelectedWritten};

use crate::verdict;
use crate::verdict::Checked;
use answer::Answer;
use dataset::{extent, reading};
use selection::select;
use selection::select::Selected;
use stream::walk;

// What is selected in a whole data set; or 1 to 8, 18 to 23.
fn select_whole(uid: &[u8], which: Option<u64>, d: &[u8]) -> Result<Selected, Answer>
    ensures { SignatureSelected uid.now which d.now result }
{
    reading::size_answer(d)?;
    let whole = extent::whole(d.len());
    select::select(uid, which, d, whole, whole)
}

// The length of the stream of a signature in a data set.
fn measured(uid: &[u8], which: Option<u64>, d: &[u8]) -> Result<usize, Answer>
    ensures { result ≡ step_by (measure uid.now which d.now) }
{
    let s = select_whole(uid, which, d)?;
    walk::measure(&d[s.start..s.end], d, s.signed, Some(s.item))
}

// Measures the stream of a signature in a data set: the answer of a call for the stream with room enough. Nothing is written.
pub fn signature_measure(uid: &[u8], which: Option<u64>, d: &[u8]) -> Answer
    ensures { result ≡ measure uid.now which d.now }
{
    Answer::from(measured(uid, which, d))
}

// Writes the stream of what is selected, with 9 by the length of the expected digest. Its length. (The list by its offsets, as `Selected`.)
fn write_selected(
    d: &[u8],
    s: Selected,
    expected: Option<usize>,
    out: &mut [u8],
) -> Result<usize, Answer>
    requires { (s.start ≤ s.end) × (s.end ≤ length d.now) }
    ensures { SelectedWritten d.now s expected out.old result out.new }
{
    let later = verdict::length_answer(s.algorithm, expected);
    walk::write(&d[s.start..s.end], d, s.signed, Some(s.item), later, out)
}

// The stream of a signature in a data set, with its length.
fn streamed(uid: &[u8], which: Option<u64>, d: &[u8], out: &mut [u8]) -> Result<usize, Answer>
    ensures { CallAnswered (signature_call uid.now which d.now out.old) None limit out.old result out.new }
{
    let selected = select_whole(uid, which, d)?;
    write_selected(d, selected, None, out)
}

// The stream of a signature in a data set, into the output: with the UID of the data set's transfer syntax.
pub fn signature_stream(uid: &[u8], which: Option<u64>, d: &[u8], out: &mut [u8]) -> Answer
    ensures { Streamed (result_of (stream_call uid.now which d.now out.old)) d.now out.old result out.new }
{
    Answer::from(streamed(uid, which, d, out))
}

// The check of the stream's digest: the stream is written into the work buffer.
pub fn signature_check(
    uid: &[u8],
    which: Option<u64>,
    d: &[u8],
    expected: &[u8],
    work: &mut [u8],
) -> Checked
    ensures { CheckedAs (result_of (check_call uid.now which d.now expected.now work.old)) d.now work.old result work.new }
{
    match select_whole(uid, which, d) {
        Err(answer) => verdict::refused(answer),
        Ok(selected) => {
            let written = write_selected(d, selected, Some(expected.len()), work);
            verdict::check_of(selected.algorithm, written, expected, work)
        }
    }
}
