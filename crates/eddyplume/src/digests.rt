// The digest of a whole message, and the running digest. A field that is an array has a name before it is stored: the kit's borrow checker
// does not take one straight.
ghost use Rattle.std.specs.Prelude.{◌≡◌};
ghost use Rattle.digest.specs.Message.{hashing};
ghost use Rattle.digest.specs.Running.{start};
ghost use Rattle.digest.specs.Sha256.{sha256};
ghost use Rattle.eddyplume.specs.Boundary.{HashedTo, Holds, DigestFed, DigestFinished, running_of};

use crate::c_values;
use digest::message;
use digest::running::Running;

// The running digest that three arrays hold: C passes them apart.
fn running_of(words: [u32; 8], waiting: [u8; 64], counts: [u64; 2]) -> Running
    ensures { result ≡ running_of words waiting counts }
{
    Running {
        words,
        waiting,
        count: counts[0] as usize,
        total: counts[1],
    }
}

// The SHA-256 digest of a whole message. (`Hashed` has its answer beside the digest, so that the number is asked.)
#[unsafe(no_mangle)]
pub extern "C" fn eddyplume_sha256(message: &[u8], digest: &mut [u8; 32], answer: &mut [u64; 3])
    ensures { HashedTo (hashing sha256 message.now) digest.old digest.new answer.new }
{
    let hashed = message::sha256(message);
    let taken = hashed.answer;
    let bytes = hashed.digest;
    *answer = c_values::answer_words(taken);
    if taken.number == 0 {
        *digest = bytes;
    }
}

// The running digest of no bytes. (It is stored as `eddyplume_digest_feed` stores it: a function would take the three arrays once more.)
#[unsafe(no_mangle)]
pub extern "C" fn eddyplume_digest_start(
    words: &mut [u32; 8],
    waiting: &mut [u8; 64],
    counts: &mut [u64; 2],
)
    ensures { Holds (start sha256) words.new waiting.new counts.new }
{
    let s = Running::start();
    let first = s.words;
    let room = s.waiting;
    *words = first;
    *waiting = room;
    *counts = [s.count as u64, s.total];
}

// Feeds bytes; a refusal leaves the running digest as it is.
#[unsafe(no_mangle)]
pub extern "C" fn eddyplume_digest_feed(
    words: &mut [u32; 8],
    waiting: &mut [u8; 64],
    counts: &mut [u64; 2],
    bytes: &[u8],
    answer: &mut [u64; 3],
)
    ensures { DigestFed words.old waiting.old counts.old bytes.now
        words.new waiting.new counts.new answer.new }
{
    let s = running_of(*words, *waiting, *counts);
    let fed = s.feed(bytes);
    let a = fed.answer;
    let next = fed.running;
    let after = next.words;
    let room = next.waiting;
    *words = after;
    *waiting = room;
    *counts = [next.count as u64, next.total];
    *answer = c_values::answer_words(a);
}

// The digest of all bytes so far; a refusal writes no digest byte. (`Finished` has its answer beside the digest, so that the number is asked.)
#[unsafe(no_mangle)]
pub extern "C" fn eddyplume_digest_finish(
    words: &[u32; 8],
    waiting: &[u8; 64],
    counts: &[u64; 2],
    digest: &mut [u8; 32],
    answer: &mut [u64; 3],
)
    ensures { DigestFinished words.now waiting.now counts.now
        digest.old digest.new answer.new }
{
    let held = running_of(*words, *waiting, *counts);
    let finished = held.finish();
    let a = finished.answer;
    let last = finished.digest;
    *answer = c_values::answer_words(a);
    if a.number == 0 {
        *digest = last;
    }
}
