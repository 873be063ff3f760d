// List mode and signature mode.
ghost use Rattle.eddyplume.specs.Boundary.{ListMeasured, ListStreamed, ListChecked, SignatureMeasured, SignatureStreamed, SignatureChecked};

use crate::c_values;
use mac::{list_mode, signature_mode};

// The answer of `eddyplume_list_stream` with room enough; nothing else is written.
#[unsafe(no_mangle)]
pub extern "C" fn eddyplume_list_measure(list: &[u8], d: &[u8], answer: &mut [u64; 3])
    ensures { ListMeasured list.now d.now answer.new }
{
    let a = list_mode::list_measure(list, d);
    *answer = c_values::answer_words(a);
}

// The stream of a list, into the output.
#[unsafe(no_mangle)]
pub extern "C" fn eddyplume_list_stream(
    list: &[u8],
    d: &[u8],
    out: &mut [u8],
    answer: &mut [u64; 3],
)
    ensures { ListStreamed list.now d.now out.old out.new answer.new }
{
    let a = list_mode::list_stream(list, d, out);
    *answer = c_values::answer_words(a);
}

// The check of the digest of a list's stream, which is left in the work buffer.
#[unsafe(no_mangle)]
pub extern "C" fn eddyplume_list_check(
    list: &[u8],
    d: &[u8],
    expected: &[u8],
    work: &mut [u8],
    answer: &mut [u64; 3],
    verdict: &mut [u8; 1],
)
    ensures { ListChecked list.now d.now expected.now
        work.old work.new answer.new verdict.new }
{
    let checked = list_mode::list_check(list, d, expected, work);
    *answer = c_values::answer_words(checked.answer);
    *verdict = [c_values::verdict_code(checked.verdict)];
}

// The answer of `eddyplume_signature_stream` with room enough; nothing else is written.
#[unsafe(no_mangle)]
pub extern "C" fn eddyplume_signature_measure(
    uid: &[u8],
    numbered: bool,
    number: u64,
    d: &[u8],
    answer: &mut [u64; 3],
)
    ensures { SignatureMeasured uid.now numbered number d.now answer.new }
{
    let which = c_values::which_of(numbered, number);
    let a = signature_mode::signature_measure(uid, which, d);
    *answer = c_values::answer_words(a);
}

// The stream of a signature, into the output.
#[unsafe(no_mangle)]
pub extern "C" fn eddyplume_signature_stream(
    uid: &[u8],
    numbered: bool,
    number: u64,
    d: &[u8],
    out: &mut [u8],
    answer: &mut [u64; 3],
)
    ensures { SignatureStreamed uid.now numbered number d.now
        out.old out.new answer.new }
{
    let which = c_values::which_of(numbered, number);
    let a = signature_mode::signature_stream(uid, which, d, out);
    *answer = c_values::answer_words(a);
}

// The check of the digest of a signature's stream, which is left in the work buffer.
#[unsafe(no_mangle)]
pub extern "C" fn eddyplume_signature_check(
    uid: &[u8],
    numbered: bool,
    number: u64,
    d: &[u8],
    expected: &[u8],
    work: &mut [u8],
    answer: &mut [u64; 3],
    verdict: &mut [u8; 1],
)
    ensures { SignatureChecked uid.now numbered number d.now expected.now
        work.old work.new answer.new verdict.new }
{
    let which = c_values::which_of(numbered, number);
    let checked = signature_mode::signature_check(uid, which, d, expected, work);
    *answer = c_values::answer_words(checked.answer);
    *verdict = [c_values::verdict_code(checked.verdict)];
}
