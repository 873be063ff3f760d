// The digest of a whole message.
ghost use Rattle.std.specs.Prelude.{◌≡◌};
ghost use Rattle.digest.specs.Sha256 as Sha256;
ghost use Rattle.digest.specs.Message as Message;
ghost use Rattle.digest.specs.Inner.Steps.{hashing_step};

use crate::running::Running;
use answer::Answer;

// The answer, and beside it the digest: RULES 10.5 and docs/DECISIONS.md, D5, give a refusal its 32 zero bytes, which a `Result` would not have.
#[derive(Clone, Copy, Debug, PartialEq, Eq)]
pub struct Hashed {
    pub answer: Answer,
    pub digest: [u8; 32],
}

// The answer and the digest of a step: a refusal has 32 zero bytes.
impl From<Result<[u8; 32], Answer>> for Hashed {
    ghost from_gives = { λ r h. h ≡ Message.hashed_by Sha256.sha256 r };

    fn from(step: Result<[u8; 32], Answer>) -> Self {
        match step {
            Ok(digest) => Self {
                answer: Answer::accepted(0),
                digest,
            },
            Err(answer) => Self {
                answer,
                digest: [0u8; 32],
            },
        }
    }
}

// The digest of a whole message, or 25.
fn digest_of(message: &[u8]) -> Result<[u8; 32], Answer>
    ensures { result ≡ hashing_step Sha256.sha256 message.now }
{
    Running::start().after(message)?.digest()
}

// The digest of a whole message. A refusal, 25, has 32 zero bytes.
pub fn sha256(message: &[u8]) -> Hashed
    ensures { result ≡ Message.hashing Sha256.sha256 message.now }
{
    Hashed::from(digest_of(message))
}
