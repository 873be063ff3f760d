// The running digest, fed in parts and finished at any time.
ghost use Rattle.std.specs.Prelude.{◌≡◌, ◌+◌, ◌≤◌, ◌++◌, length};
ghost use Rattle.digest.specs.Message.{rest};
ghost use Rattle.digest.specs.Sha256 as Sha256;
ghost use Rattle.digest.specs.Running as Spec;
ghost use Rattle.digest.specs.Inner.Ready.{Ready};
ghost use Rattle.digest.specs.Inner.Steps.{feeding_step, finishing_step};

use crate::message::Hashed;
use crate::{bytes, padding, sha256};
use answer::Answer;
use answer::refusal::Refusal;

// The most bytes of a message, 2^61 - 1: their bits are counted in 64 bits.
pub const LIMIT: u64 = 2305843009213693951;

// Eight words, the bytes that wait for the rest of their block, their count, and the total of all bytes.
// C passes array and count, and may pass an impossible count (RULES 10.3; docs/DECISIONS.md, D1), so that they stand side by side.
#[derive(Clone, Copy, Debug, PartialEq, Eq)]
pub struct Running {
    pub words: [u32; 8],
    pub waiting: [u8; 64],
    pub count: usize,
    pub total: u64,
}

// What feeding gives back: the answer, and the next running digest. A refusal returns the one received (RULES 10.4), which a `Result`
// would not.
#[derive(Clone, Copy, Debug, PartialEq, Eq)]
pub struct Fed {
    pub answer: Answer,
    pub running: Running,
}

// What finishing gives back: the answer, the digest, and the running digest as it was. A refusal has 32 zero bytes (RULES 10.5), which a
// `Result` would not.
#[derive(Clone, Copy, Debug, PartialEq, Eq)]
pub struct Finished {
    pub answer: Answer,
    pub digest: [u8; 32],
    pub running: Running,
}

// The waiting bytes with `bytes` after them, and zeros in the room that is left.
fn filled(waiting: &[u8], bytes: &[u8]) -> [u8; 64]
    requires { length waiting.now + length bytes.now ≤ 64 }
    ensures { result ≡ Spec.zero_filled (waiting.now ++ bytes.now) }
{
    let mut all = [0u8; 64];
    slices::copy(waiting, &mut all, 0);
    slices::copy(bytes, &mut all, waiting.len());
    all
}

impl Running {
    // The running digest of no bytes.
    pub fn start() -> Self
        ensures { result ≡ Spec.start Sha256.sha256 }
    {
        Self {
            words: sha256::START,
            waiting: [0u8; 64],
            count: 0,
            total: 0,
        }
    }

    // Whether the count of waiting bytes is right, and the rest of the room for them is zero.
    fn possible(&self) -> bool
        ensures { result ≡ Spec.possible self.now }
    {
        self.count as u64 == self.total % 64 && slices::all_are(&self.waiting[self.count..], 0)
    }

    // Whether it is possible and takes so many bytes more.
    fn accepts(&self, more: usize) -> bool
        ensures { result ≡ Spec.accepts self.now more }
    {
        self.total <= LIMIT && more as u64 <= LIMIT - self.total && self.possible()
    }

    // The running digest after `bytes`.
    fn fed(&self, bytes: &[u8]) -> Self
        requires { Ready self.now (length bytes.now) }
        ensures { result ≡ Spec.fed Sha256.sha256 self.now bytes.now }
    {
        let waiting = &self.waiting[..self.count];
        let total = self.total + bytes.len() as u64;
        let room = 64 - self.count;
        if bytes.len() < room {
            return Self {
                words: self.words,
                waiting: filled(waiting, bytes),
                count: self.count + bytes.len(),
                total,
            };
        }
        let (first, after) = bytes.split_at(room);
        let words = sha256::after_blocks(self.words, &filled(waiting, first));
        let (_, rest) = after.as_chunks::<64>();
        Self {
            words: sha256::after_blocks(words, after),
            waiting: filled(rest, b""),
            count: rest.len(),
            total,
        }
    }

    // The running digest after `bytes`, or 25 where it does not take them.
    pub(crate) fn after(&self, bytes: &[u8]) -> Result<Self, Answer>
        ensures { result ≡ feeding_step Sha256.sha256 self.now bytes.now }
    {
        if self.accepts(bytes.len()) {
            Ok(self.fed(bytes))
        } else {
            Err(Refusal::BadRunningDigest.at(0))
        }
    }

    // Feeds `bytes`. Refused, with 25, it returns the running digest as received. (No `From` as `Hashed` has: the step does not carry that.)
    pub fn feed(self, bytes: &[u8]) -> Fed
        ensures { result ≡ Spec.feeding Sha256.sha256 self bytes.now }
    {
        match self.after(bytes) {
            Ok(running) => Fed {
                answer: Answer::accepted(0),
                running,
            },
            Err(answer) => Fed {
                answer,
                running: self,
            },
        }
    }

    // The digest of all bytes so far.
    fn finished(&self) -> [u8; 32]
        requires { Ready self.now 0 }
        ensures { result ≡ Spec.finished Sha256.sha256 self.now }
    {
        let bits = (8 * self.total).to_be_bytes();
        let n = padding::padded_size(self.count);
        let end = padding::padded(&self.waiting[..self.count], bits, n);
        bytes::word_bytes(&sha256::after_blocks(self.words, &end[..n]))
    }

    // The digest of all bytes so far, or 25 where it is not possible. (As `after`, by the one test; a function of the two would be no shorter.)
    pub(crate) fn digest(&self) -> Result<[u8; 32], Answer>
        ensures { result ≡ finishing_step Sha256.sha256 self.now }
    {
        if self.accepts(0) {
            Ok(self.finished())
        } else {
            Err(Refusal::BadRunningDigest.at(0))
        }
    }

    // The digest of all bytes so far. A refusal, 25, has 32 zero bytes. The running digest comes back as it was, and can be fed on.
    pub fn finish(self) -> Finished
        ensures { result ≡ Spec.finishing Sha256.sha256 self }
    {
        let Hashed { answer, digest } = Hashed::from(self.digest());
        Finished {
            answer,
            digest,
            running: self,
        }
    }
}
