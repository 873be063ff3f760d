// Numbers, tags and VRs in a data set: a number's low byte first, a VR's first letter first. Each is one line by the library, which has a
// function for each width. Each asks that the bytes that it reads lie in the data.
ghost use Rattle.std.specs.Prelude.{◌≡◌, ◌+◌, ◌<◌, ◌≤◌, length};
ghost use Rattle.dataset.specs.Bytes.{num16, num32, tag_at, tag_in, vr_at};

// The two-byte number at i.
pub(crate) fn number16(d: &[u8], i: usize) -> u32
    requires { i + 2 ≤ length d.now }
    ensures { (result ≡ num16 d.now i) × (result < 65536) }
{
    u16::from_le_bytes([d[i], d[i + 1]]) as u32
}

// The four-byte number at i.
pub(crate) fn number32(d: &[u8], i: usize) -> u32
    requires { i + 4 ≤ length d.now }
    ensures { result ≡ num32 d.now i }
{
    u32::from_le_bytes([d[i], d[i + 1], d[i + 2], d[i + 3]])
}

// The tag at i.
pub(crate) fn tag_at(d: &[u8], i: usize) -> u32
    requires { i + 4 ≤ length d.now }
    ensures { result ≡ tag_at d.now i }
{
    number16(d, i) * 65536 + number16(d, i + 2)
}

// The tag at i, or none where four bytes do not stand there.
pub fn tag_in(s: &[u8], i: usize) -> Option<u32>
    ensures { result ≡ tag_in s.now i }
{
    if s.len() < 4 || s.len() - 4 < i {
        return None;
    }
    Some(tag_at(s, i))
}

// The VR of the element at i.
pub(crate) fn vr_at(d: &[u8], i: usize) -> u16
    requires { i + 6 ≤ length d.now }
    ensures { result ≡ vr_at d.now i }
{
    u16::from_be_bytes([d[i + 4], d[i + 5]])
}
