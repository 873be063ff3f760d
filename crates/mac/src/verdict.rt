// 9, the digest by its algorithm, and what a check says.
ghost use Rattle.std.specs.Prelude.{◌≡◌, ◌≤◌, length, IfOk};
ghost use Rattle.std.proofs.Math.Option.{some};
ghost use Rattle.answer.specs.Step.{test_by};
ghost use Rattle.digest.specs.Message.{hashing};
ghost use Rattle.mac.specs.Result.{verdict_code, compared};
ghost use Rattle.mac.specs.Inner.Verdict.{CheckOf, digest_length, standard, length_answer, refused_check};

use answer::Answer;
use answer::refusal::Refusal;
use digest::message;
use digest::message::Hashed;
use selection::select::Algorithm;

// Whether the digest of the stream is the expected one; a check that is refused says neither of the two. C has a number for each of the
// three (`verdict_code` of specs/Result).
#[derive(Clone, Copy, Debug, PartialEq, Eq)]
pub enum Verdict {
    Neither = 0,
    Same = 1,
    Differs = 2,
}

// What a check gives back. `CheckedAs` and C have a verdict beside a refusal, too (RULES 7.4), which a `Result` would not.
#[derive(Clone, Copy, Debug, PartialEq, Eq)]
pub struct Checked {
    pub answer: Answer,
    pub verdict: Verdict,
}

// How many bytes the digests of an algorithm have.
fn digest_length(algorithm: Algorithm) -> usize
    ensures { result ≡ digest_length algorithm }
{
    match algorithm {
        Algorithm::Sha256 => 32,
    }
}

// The digest of a message, by its algorithm.
fn digest_by(algorithm: Algorithm, message: &[u8]) -> Hashed
    ensures { result ≡ hashing (standard algorithm) message.now }
{
    match algorithm {
        Algorithm::Sha256 => message::sha256(message),
    }
}

// 9, where an expected digest has not the length of the algorithm's; a call for the stream expects none.
pub(crate) fn length_answer(algorithm: Algorithm, expected: Option<usize>) -> Result<(), Answer>
    ensures { result ≡ test_by (length_answer algorithm expected) }
{
    match expected {
        None => Ok(()),
        Some(length) => {
            if length != digest_length(algorithm) {
                return Err(Refusal::DigestLength.at(0));
            }
            Ok(())
        }
    }
}

// What a check says of the digest of its stream.
fn verdict_of(digest: &[u8], expected: &[u8]) -> Verdict
    ensures { verdict_code result ≡ compared (some expected.now) digest.now }
{
    if slices::same(digest, expected) {
        return Verdict::Same;
    }
    Verdict::Differs
}

// A check that is refused.
pub(crate) fn refused(answer: Answer) -> Checked
    ensures { result ≡ refused_check answer }
{
    Checked {
        answer,
        verdict: Verdict::Neither,
    }
}

// A check, by the step that wrote its stream into the work buffer.
pub(crate) fn check_of(
    algorithm: Algorithm,
    written: Result<usize, Answer>,
    expected: &[u8],
    work: &[u8],
) -> Checked
    requires { IfOk written (λ n. n ≤ length work.now) }
    ensures { CheckOf algorithm written expected.now work.now result }
{
    match written {
        Err(answer) => refused(answer),
        Ok(length) => {
            let digest = digest_by(algorithm, &work[..length]).digest;
            Checked {
                answer: Answer::accepted(length),
                verdict: verdict_of(&digest, expected),
            }
        }
    }
}
