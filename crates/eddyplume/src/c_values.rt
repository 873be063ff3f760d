// The values that C gets: answers, verdicts, yes or no; and the signature that it names. What they are as numbers is the C interface's, so that
// it is said here, beside it, and not by a `From` where the types are.
ghost use Rattle.std.specs.Prelude.{◌≡◌};
ghost use Rattle.mac.specs.Result.{verdict_code};
ghost use Rattle.eddyplume.specs.Boundary.{answer_words, which_of, flag};

use answer::Answer;
use mac::verdict::Verdict;

// Number, position, length.
pub(crate) fn answer_words(a: Answer) -> [u64; 3]
    ensures { result ≡ answer_words a }
{
    [a.number as u64, a.position as u64, a.length as u64]
}

// 0 neither, 1 same, 2 differs.
pub(crate) fn verdict_code(v: Verdict) -> u8
    ensures { result ≡ verdict_code v }
{
    v as u8
}

// A signature number, or none.
pub(crate) fn which_of(numbered: bool, number: u64) -> Option<u64>
    ensures { result ≡ which_of numbered number }
{
    numbered.then_some(number)
}

// 1 for yes, 0 for no.
pub(crate) fn flag_of(yes: bool) -> u64
    ensures { result ≡ flag yes }
{
    u64::from(yes)
}
