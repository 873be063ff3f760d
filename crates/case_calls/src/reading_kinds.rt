// The kinds of cases of the reading and the lookup.
use crate::print;
use answer::Answer;
use dataset::extent::Extent;
use dataset::reading::OneOutcome;
use dataset::{extent, lookup, reading};
use std::io;
use std::io::Write;

pub fn print_reading<W: Write>(writer: &mut W, d: &[u8]) -> io::Result<()> {
    let answer = reading::read(d);
    writeln!(writer, " {} {}", answer.number, answer.position)
}

// The tag, the VR, the start and the length of the value, and the offset past the element.
fn print_element<W: Write>(
    writer: &mut W,
    tag: u32,
    vr: u16,
    start: usize,
    end: usize,
    next: usize,
) -> io::Result<()> {
    write!(writer, " 0 {tag:08x} ")?;
    writer.write_all(&vr.to_be_bytes())?;
    write!(writer, " {start}")?;
    if start <= end {
        write!(writer, " {}", end - start)?;
    }
    writeln!(writer, " {next}")
}

// What the reader of one element answers at the start of the data, with so many levels left.
pub fn print_one<W: Write>(writer: &mut W, d: &[u8], left: u32) -> io::Result<()> {
    let x = Extent {
        left,
        ..extent::whole(d.len())
    };
    match reading::read_one(d, x, 0) {
        Err(answer) => writeln!(writer, " {} {}", answer.number, answer.position),
        Ok(OneOutcome::End(_)) => writeln!(writer, " end"),
        Ok(
            OneOutcome::Element {
                tag,
                vr,
                start,
                end,
                next,
            },
        ) => print_element(writer, tag, vr, start, end, next),
    }
}

pub fn print_lookup<W: Write>(writer: &mut W, d: &[u8], tag: u32) -> io::Result<()> {
    let found = lookup::lookup(d, tag);
    let Answer {
        number,
        position,
        ..
    } = found.answer;
    let yes_or_no = if found.present { "yes" } else { "no" };
    write!(
        writer,
        " {number} {position} {yes_or_no} {}",
        found.part.len()
    )?;
    print::hex(writer, found.part)?;
    writeln!(writer)
}
