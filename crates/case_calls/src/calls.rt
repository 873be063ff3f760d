// The calls of the two modes, and what is printed of them.
use crate::print;
use answer::Answer;
use mac::verdict::{Checked, Verdict};
use mac::{list_mode, signature_mode};
use std::io;
use std::io::Write;

// A mode, and what its calls take beside a data set; `which` is the number of a signature, or none is named.
#[derive(Clone, Copy)]
pub enum Mode<'a> {
    List { list: &'a [u8] },
    Signature { uid: &'a [u8], which: Option<u64> },
}

// Three matches over the modes: which of the two it is a line of a file says, so that types with a trait would need this enum besides.
impl<'a> Mode<'a> {
    fn measure(self, d: &[u8]) -> Answer {
        match self {
            Mode::List { list } => list_mode::list_measure(list, d),
            Mode::Signature { uid, which } => signature_mode::signature_measure(uid, which, d),
        }
    }

    fn stream(self, d: &[u8], out: &mut [u8]) -> Answer {
        match self {
            Mode::List { list } => list_mode::list_stream(list, d, out),
            Mode::Signature { uid, which } => signature_mode::signature_stream(uid, which, d, out),
        }
    }

    fn check(self, d: &[u8], expected: &[u8], buffer: &mut [u8]) -> Checked {
        match self {
            Mode::List { list } => list_mode::list_check(list, d, expected, buffer),
            Mode::Signature { uid, which } => {
                signature_mode::signature_check(uid, which, d, expected, buffer)
            }
        }
    }
}

// Number, position and length.
fn print_answer<W: Write>(writer: &mut W, answer: Answer) -> io::Result<()> {
    let Answer {
        number,
        position,
        length,
    } = answer;
    write!(writer, " {number} {position} {length}")
}

// Measures, and prints the answer.
pub fn print_measure<W: Write>(writer: &mut W, mode: Mode, d: &[u8]) -> io::Result<()> {
    print_answer(writer, mode.measure(d))?;
    writeln!(writer)
}

// Makes the stream in an output room, and prints the answer, and the stream in hex.
pub fn print_stream<W: Write>(
    writer: &mut W,
    mode: Mode,
    d: &[u8],
    out: &mut [u8],
) -> io::Result<()> {
    let answer = mode.stream(d, out);
    print_answer(writer, answer)?;
    print::hex(writer, out.get(..answer.length).unwrap_or(b""))?;
    writeln!(writer)
}

// Checks an expected digest with a work buffer, and prints the answer, and what the check says. (A type of this crate round an
// Answer or a Verdict, with a Display, would be no shorter than what prints them here.)
pub fn print_check<W: Write>(
    writer: &mut W,
    mode: Mode,
    d: &[u8],
    expected: &[u8],
    buffer: &mut [u8],
) -> io::Result<()> {
    let Checked { answer, verdict } = mode.check(d, expected, buffer);
    print_answer(writer, answer)?;
    match verdict {
        Verdict::Neither => writeln!(writer, " neither"),
        Verdict::Same => writeln!(writer, " same"),
        Verdict::Differs => writeln!(writer, " differs"),
    }
}
