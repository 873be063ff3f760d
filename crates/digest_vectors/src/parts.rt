// A message fed in parts: what `finish` returns after calls of `feed`.
ghost use Rattle.std.specs.Prelude.{◌≡◌, ◌<◌};
ghost use Rattle.digest.specs.Sha256.{sha256};
ghost use Rattle.digest.specs.Message.{hashing};

use digest::message::Hashed;
use digest::running::Running;

// The digest of a message that is fed in parts of so many bytes, the last one perhaps shorter: that of the whole message.
pub(crate) fn in_parts(message: &[u8], size: usize) -> Hashed
    requires { 0 < size }
    ensures { result ≡ hashing sha256 message.now }
{
    let mut state = Running::start();
    for part in message.chunks(size) {
        let fed = state.feed(part);
        // `Fed` has the running digest beside the answer in a refusal too (RULES 10.4), so that there is no `?` here.
        if fed.answer.number != 0 {
            return Hashed::from(Err(fed.answer));
        }
        state = fed.running;
    }
    let done = state.finish();
    let digest = done.digest;
    Hashed {
        answer: done.answer,
        digest,
    }
}
