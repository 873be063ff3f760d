// Values as a line shows them.
use answer::Answer;
use std::fmt;

// An answer's number, position and length.
#[derive(Clone, Copy)]
pub(crate) struct Numbers(pub Answer);

impl fmt::Display for Numbers {
    fn fmt<W: fmt::Write>(&self, f: &mut fmt::Formatter<W>) -> fmt::Result {
        let a = self.0;
        write!(f, "{} {} {}", a.number, a.position, a.length)
    }
}

// A digest in lower-case hex. (Three lines here, and for any bytes in case_calls.)
#[derive(Clone, Copy)]
pub(crate) struct Hex(pub [u8; 32]);

impl fmt::Display for Hex {
    fn fmt<W: fmt::Write>(&self, f: &mut fmt::Formatter<W>) -> fmt::Result {
        for byte in &self.0 {
            write!(f, "{byte:02x}")?;
        }
        Ok(())
    }
}
