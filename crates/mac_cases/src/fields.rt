// The fields of a line, parted by single spaces, from the first on: a line's first field, what is left of the line behind it, and the
// numbers in a field. No field that is understood is empty, so that a missing field is not understood. The last field of a case, its
// bytes, is all that is left of the line: no bytes are spelled with a space, so that a field too many is not understood.
ghost use Rattle.std.specs.Prelude.{◌≤◌};

// What stands before and behind the first byte b of s: all of s and nothing where there is none.
pub(crate) fn parted(s: &[u8], b: u8) -> (&[u8], &[u8]) {
    let mut parts = s.splitn(2, |c| *c == b);
    let before = parts.next().unwrap_or(b"");
    let behind = parts.next().unwrap_or(b"");
    (before, behind)
}

// The first field of a line, and what is left of the line behind it.
pub(crate) fn first(line: &[u8]) -> (&[u8], &[u8]) {
    parted(line, b' ')
}

// The number of 64 bits that a field says in a base. (The library's `from_str_radix` takes a str, and a sign before the digits.)
pub(crate) fn number_in(field: &[u8], base: u32) -> Option<usize>
    requires { (2 ≤ base) × (base ≤ 36) }
{
    if field.is_empty() {
        return None;
    }
    let mut number: usize = 0;
    for c in field {
        let digit = char::from(*c).to_digit(base)?;
        number = number
            .checked_mul(base as usize)?
            .checked_add(digit as usize)?;
    }
    Some(number)
}

// A number in decimal.
pub(crate) fn number_of(field: &[u8]) -> Option<usize> {
    number_in(field, 10)
}
