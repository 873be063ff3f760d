// The kind of cases of the stream program.
use mac_frame::frame;
use std::io;
use std::io::Write;

// A newline, and what the stream program prints for the input: into the array that print_frame wants.
pub fn print_program<W: Write>(writer: &mut W, input: &[u8]) -> io::Result<()> {
    let mut text = [0u8; 135168];
    let size = frame::print_frame(input, &mut text);
    writeln!(writer)?;
    writer.write_all(&text[..size])
}
