#![tactic(auto)]
// Runs the cases of standard input and prints a line for each. A case is a line `NAME KIND ARGS`, its fields parted by single
// spaces; an empty line and one that starts with # print nothing; a line that is not understood prints `NAME ?`. Of a longer input
// than 2,228,223 bytes nothing is run: it prints the one line `input over 2228223 bytes`.
//   NAME read DATA                                       prints NAME NUMBER POSITION
//   NAME one LEFT DATA                                   prints what the reader of one element answers at the start of the data with LEFT
//                                                        levels left: NAME NUMBER POSITION where it is refused, NAME end where there is no
//                                                        data, or NAME 0 TAG VR START LENGTH NEXT
//   NAME lookup TAG DATA                                 prints NAME NUMBER POSITION yes|no LENGTH HEX, without HEX where LENGTH is 0
//   NAME list ROOM LIST DATA                             prints NAME NUMBER POSITION LENGTH HEX, without HEX where LENGTH is 0
//   NAME list-check ROOM EXPECTED LIST DATA              prints NAME NUMBER POSITION LENGTH neither|same|differs
//   NAME signature ROOM UID WHICH DATA                   prints as list does; WHICH is a number in decimal, or none
//   NAME signature-check ROOM EXPECTED UID WHICH DATA    prints as list-check does
//   NAME list-measure LIST DATA                          prints NAME NUMBER POSITION LENGTH
//   NAME signature-measure UID WHICH DATA                prints as list-measure does
//   NAME frame INPUT                                     prints NAME, a newline, and what the stream program prints for the input
mod bytes;
mod fields;
mod kinds;
mod mode_kinds;

use input_bytes::read_full;
use std::io;
use std::io::{BufWriter, Write};

// Runs each line of the text.
fn run<W: Write>(writer: &mut W, text: &[u8]) -> io::Result<()> {
    for line in text.split(|c| *c == b'\n') {
        kinds::run_case(writer, line)?;
    }
    Ok(())
}

// Reads the text of the cases and runs it. The text may be as long as a case of the largest data set in hex, and a little more; of a
// longer one nothing is run.
fn run_input<W: Write>(
    rt: &impl Input,
    writer: &mut W,
    input: &mut [u8; 2228224],
) -> io::Result<()> {
    let n = read_full(&mut rt.reader(), input)?;
    if n == input.len() {
        return writeln!(writer, "input over 2228223 bytes");
    }
    run(writer, &input[..n])
}

fn main(rt: HostRuntime) -> io::Result<()> {
    let mut input = [0u8; 2228224];
    let mut writer = BufWriter::new(rt.alloc(), io::writer(&rt))?;
    run_input(&rt, &mut writer, &mut input)?;
    writer.flush()
}
