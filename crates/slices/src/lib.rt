#![tactic(auto)]
// What every crate does with bytes: copy, compare, test.
ghost use Rattle.std.specs.Prelude.{◌≡◌};
ghost use Rattle.std.proofs.lemmas.List.Edits.{sets};
ghost use Rattle.slices.specs.Lists.{same_bytes, all_are};

// Copies bytes to the output, from `to` on. What does not fit is not written. (By name, since README has it; the offset may lie past the
// output. A loop, since of the library's `copy_from_slice` the compiler makes `memmove`, which the archive for C would need besides `memcpy`.)
pub fn copy(bytes: &[u8], out: &mut [u8], to: usize)
    ensures { out.new ≡ sets out.old to bytes.now }
{
    let size = out.len();
    if size <= to {
        return;
    }
    let count = bytes.len().min(size - to);
    for i in 0..count {
        out[to + i] = bytes[i];
    }
}

// Whether two lists of bytes are the same: by name, since README has it, and the definitions of its callers say `same_bytes`. (A loop, not
// `==`, so that the two bytes that are compared stand in a goal, where a wrong one is refused for its value.)
pub fn same(a: &[u8], b: &[u8]) -> bool
    ensures { result ≡ same_bytes a.now b.now }
{
    if a.len() != b.len() {
        return false;
    }
    for i in 0..a.len() {
        if a[i] != b[i] {
            return false;
        }
    }
    true
}

// Whether every byte is this one.
pub fn all_are(bytes: &[u8], byte: u8) -> bool
    ensures { result ≡ all_are byte bytes.now }
{
    bytes.iter().all(|b| *b == byte)
}
