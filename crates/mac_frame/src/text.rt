// Text of the stream program, written into a lent buffer.
ghost use Rattle.std.specs.Prelude.{◌≡◌, ◌++◌, ◌^◌, ◌<◌, ◌≤◌, ◌∷◌, [], flat_map, length};
ghost use Rattle.mac_frame.specs.Text as Spec;
ghost use Rattle.mac_frame.specs.Inner.Puts.{Puts};

use answer::Answer;
use itoa::Buffer;

// The buffer, which is lent (there is no heap), and how much text there is so far. `Puts` speaks of both: what does not fit is counted, too.
// How much there may be before a call is no one bound: who calls others leaves room for their counts.
#[derive(Drop)]
pub(crate) struct Text<'a> {
    pub(crate) room: &'a mut [u8],
    pub(crate) size: usize,
}

impl<'a> Text<'a> {
    fn put(&mut self, bytes: &[u8])
        requires { (self.old.size < 2 ^ 62) × (length bytes.now ≤ 2 ^ 32) }
        ensures { Puts self.old bytes.now self.new }
    {
        slices::copy(bytes, &mut *self.room, self.size);
        self.size += bytes.len();
    }

    fn put_decimal(&mut self, n: u64)
        requires { self.old.size < 2 ^ 61 }
        ensures { Puts self.old (Spec.decimal n) self.new }
    {
        let mut digits = Buffer::new();
        self.put(digits.format(n).as_bytes());
    }

    fn put_decimal_then(&mut self, n: u64, end: u8)
        requires { self.old.size < 2 ^ 61 }
        ensures { Puts self.old (Spec.decimal_then n end) self.new }
    {
        self.put_decimal(n);
        self.put(&[end]);
    }

    // The first line. (`write!` promises what it writes only where it gives Ok, and no clause says that it does.)
    pub(crate) fn put_line(&mut self, answer: Answer)
        requires { self.old.size < 2 ^ 60 }
        ensures { Puts self.old (Spec.line answer) self.new }
    {
        self.put_decimal_then(answer.number as u64, b' ');
        self.put_decimal_then(answer.position as u64, b' ');
        self.put_decimal_then(answer.length as u64, b'\n');
    }

    // A line: bytes in hex, and its end. (Two digits a byte is what encode_to_slice asks for, so that it writes them.)
    fn put_hex_line(&mut self, bytes: &[u8])
        requires { (self.old.size < 2 ^ 61) × (length bytes.now ≤ 32) }
        ensures { Puts self.old (flat_map Spec.hex bytes.now ++ (Spec.newline ∷ [])) self.new }
    {
        let mut room = [0u8; 64];
        let digits = &mut room[..2 * bytes.len()];
        let _ = hex::encode_to_slice(bytes, digits);
        self.put(digits);
        self.put(b"\n");
    }

    // The lines of hex, each of 32 bytes, but for the last.
    pub(crate) fn put_lines(&mut self, bytes: &[u8])
        requires { (self.old.size < 2 ^ 60) × (length bytes.now ≤ 2 ^ 32) }
        ensures { Puts self.old (Spec.hex_lines bytes.now) self.new }
    {
        for line in bytes.chunks(32) {
            self.put_hex_line(line);
        }
    }
}
