// The kinds of cases.
use crate::mode_kinds::Call;
use crate::{bytes, fields, mode_kinds};
use case_calls::{frame_kind, reading_kinds};
use std::io;
use std::io::Write;

// A case that is understood: what is asked of the bytes of its DATA or INPUT, or a call of a mode.
#[derive(Clone, Copy)]
enum Case<'a> {
    Reading(&'a [u8]),
    One { left: u32, d: &'a [u8] },
    Lookup { tag: u32, d: &'a [u8] },
    Program(&'a [u8]),
    Mode(Call<'a>),
}

// The bytes of the last field, which is all that is left of the line.
fn last<'a>(field: &[u8], room: &'a mut [u8]) -> Option<&'a [u8]> {
    let (bytes, _) = bytes::put(field, room)?;
    Some(bytes)
}

// LEFT, the levels left, and DATA.
fn one_of<'a>(args: &[u8], room: &'a mut [u8]) -> Option<Case<'a>> {
    let (left, set) = fields::first(args);
    let left = u32::try_from(fields::number_of(left)?).ok()?;
    let d = last(set, room)?;
    Some(Case::One { left, d })
}

// TAG, as eight hex digits, group first, and DATA.
fn lookup_of<'a>(args: &[u8], room: &'a mut [u8]) -> Option<Case<'a>> {
    let (tag, set) = fields::first(args);
    if tag.len() != 8 {
        return None;
    }
    let tag = u32::try_from(fields::number_in(tag, 16)?).ok()?;
    let d = last(set, room)?;
    Some(Case::Lookup { tag, d })
}

// The case of a kind, with the fields behind it.
fn case_of<'a>(kind: &[u8], args: &[u8], room: &'a mut [u8]) -> Option<Case<'a>> {
    match kind {
        b"read" => Some(Case::Reading(last(args, room)?)),
        b"one" => one_of(args, room),
        b"lookup" => lookup_of(args, room),
        b"frame" => Some(Case::Program(last(args, room)?)),
        _ => Some(Case::Mode(mode_kinds::call_of(kind, args, room)?)),
    }
}

// Prints what a case asks for.
fn print_case<W: Write>(writer: &mut W, case: Case) -> io::Result<()> {
    match case {
        Case::Reading(d) => reading_kinds::print_reading(writer, d),
        Case::One { left, d } => reading_kinds::print_one(writer, d, left),
        Case::Lookup { tag, d } => reading_kinds::print_lookup(writer, d, tag),
        Case::Program(input) => frame_kind::print_program(writer, input),
        Case::Mode(call) => mode_kinds::print_call(writer, call),
    }
}

// Runs a case of this kind, with a room for the bytes of its fields.
fn run_in<W: Write>(
    writer: &mut W,
    kind: &[u8],
    args: &[u8],
    room: &mut [u8; 1056960],
) -> io::Result<()> {
    match case_of(kind, args, room) {
        Some(case) => print_case(writer, case),
        None => writeln!(writer, " ?"),
    }
}

// Runs a case of this kind. The room for the bytes of its fields is a little over the size of a data set, and of a list and a digest with it. It is an
// array: what a case may have is what fits, and a Vec would have this limit beside it. It is made here, and not inlined: elsewhere the
// compiler clears it once more at the start of the function, for an empty line too.
#[inline(never)]
fn run_kind<W: Write>(writer: &mut W, kind: &[u8], args: &[u8]) -> io::Result<()> {
    let mut room = [0u8; 1056960];
    run_in(writer, kind, args, &mut room)
}

// Runs the case of one line.
pub(crate) fn run_case<W: Write>(writer: &mut W, line: &[u8]) -> io::Result<()> {
    if line.is_empty() || line.starts_with(b"#") {
        return Ok(());
    }
    let (name, case) = fields::first(line);
    writer.write_all(name)?;
    let (kind, args) = fields::first(case);
    run_kind(writer, kind, args)
}
