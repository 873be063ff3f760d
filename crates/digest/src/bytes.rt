// Words as bytes, with the high byte first.
ghost use Rattle.std.specs.Prelude.{◌≡◌};
ghost use Rattle.digest.specs.Padding as Spec;

use std::array;

pub(crate) fn word_bytes(words: &[u32; 8]) -> [u8; 32]
    ensures { result ≡ Spec.word_bytes Spec.big_endian 32 words.now }
{
    array::from_fn(|i| words[i / 4].to_be_bytes()[i % 4])
}
