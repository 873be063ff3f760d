// The waiting bytes and the padding after them: FIPS 180-4, 5.1.1.
ghost use Rattle.std.specs.Prelude.{◌≡◌, ◌+◌, ◌-◌, ◌<◌, ◌≤◌, ◌∷◌, ◌++◌, length, take, replicate, nat_lt, if◌then◌else◌};

// How many bytes `count` waiting bytes are when they are padded: one block, or two where the length does not fit.
pub(crate) fn padded_size(count: usize) -> usize
    ensures { result ≡ (if nat_lt count 56 then 64 else 128) }
{
    if count < 56 { 64 } else { 128 }
}

// The waiting bytes, the byte 0x80, zeros, and the eight bytes of the length in bits: n bytes in all. There is no heap, so that the room is
// that of two blocks, of which n bytes count.
pub(crate) fn padded(waiting: &[u8], bits: [u8; 8], n: usize) -> [u8; 128]
    requires { (length waiting.now + 9 ≤ n) × (n ≤ 128) }
    ensures { take n result ≡ waiting.now ++ (0x80 ∷ (replicate (n - 9 - length waiting.now) 0 ++ bits)) }
{
    let mut end = [0u8; 128];
    slices::copy(waiting, &mut end, 0);
    end[waiting.len()] = 0x80;
    slices::copy(&bits, &mut end, n - 8);
    end
}
