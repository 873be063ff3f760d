// The kinds of cases of list mode and of signature mode.
//   list ROOM LIST DATA
//   list-check ROOM EXPECTED LIST DATA
//   signature ROOM UID WHICH DATA
//   signature-check ROOM EXPECTED UID WHICH DATA
//   list-measure LIST DATA
//   signature-measure UID WHICH DATA
ghost use Rattle.std.specs.Prelude.{◌≤◌};

use crate::{bytes, fields};
use case_calls::calls;
use case_calls::calls::Mode;
use std::io;
use std::io::Write;

// A little over the size of a data set.
const MOST_ROOM: usize = 1048640;

// ROOM: how much of it is output room or work buffer.
#[derive(Clone, Copy)]
struct Room {
    size: usize,
    ghost fits: { size ≤ 1048640 },
}

impl Room {
    fn of(field: &[u8]) -> Option<Room> {
        let size = fields::number_of(field)?;
        if MOST_ROOM < size {
            return None;
        }
        Some(Room { size })
    }
}

// What is wanted of a call.
#[derive(Clone, Copy)]
enum Wanted<'a> {
    Stream(Room),
    Check { room: Room, expected: &'a [u8] },
    Measure,
}

// A call: of which mode, on which data set, and what is wanted of it.
#[derive(Clone, Copy)]
pub(crate) struct Call<'a> {
    mode: Mode<'a>,
    d: &'a [u8],
    wanted: Wanted<'a>,
}

// Of which mode a call is. (With list_of or signature_of itself as a parameter, each of the three functions below would have a bound
// F: Fn(&[u8], &'a mut [u8]) -> .. and a clause F.IsAlwaysCallable: no plainer.)
#[derive(Clone, Copy)]
enum Named {
    List,
    Signature,
}

// LIST DATA
fn list_of<'a>(args: &[u8], room: &'a mut [u8]) -> Option<(Mode<'a>, &'a [u8])> {
    let (list, set) = fields::first(args);
    let (list, room) = bytes::put(list, room)?;
    let (d, _) = bytes::put(set, room)?;
    Some((Mode::List { list }, d))
}

// WHICH: a number in decimal, or none. The outer None is a field that is not understood, the inner one says that none is named.
// (Bytes, and a word of the case files: no `FromStr`.)
fn which_of(field: &[u8]) -> Option<Option<u64>> {
    match field {
        b"none" => Some(None),
        _ => Some(Some(fields::number_of(field)? as u64)),
    }
}

// UID WHICH DATA
fn signature_of<'a>(args: &[u8], room: &'a mut [u8]) -> Option<(Mode<'a>, &'a [u8])> {
    let (uid, args) = fields::first(args);
    let (which, set) = fields::first(args);
    let which = which_of(which)?;
    let (uid, room) = bytes::put(uid, room)?;
    let (d, _) = bytes::put(set, room)?;
    Some((Mode::Signature { uid, which }, d))
}

fn mode_of<'a>(named: Named, args: &[u8], room: &'a mut [u8]) -> Option<(Mode<'a>, &'a [u8])> {
    match named {
        Named::List => list_of(args, room),
        Named::Signature => signature_of(args, room),
    }
}

// LIST DATA or UID WHICH DATA
fn measure_of<'a>(named: Named, args: &[u8], room: &'a mut [u8]) -> Option<Call<'a>> {
    let (mode, d) = mode_of(named, args, room)?;
    let wanted = Wanted::Measure;
    Some(Call { mode, d, wanted })
}

// ROOM before those
fn stream_of<'a>(named: Named, args: &[u8], room: &'a mut [u8]) -> Option<Call<'a>> {
    let (size, args) = fields::first(args);
    let wanted = Wanted::Stream(Room::of(size)?);
    let (mode, d) = mode_of(named, args, room)?;
    Some(Call { mode, d, wanted })
}

// ROOM EXPECTED before those
fn check_of<'a>(named: Named, args: &[u8], room: &'a mut [u8]) -> Option<Call<'a>> {
    let (size, args) = fields::first(args);
    let (expected, args) = fields::first(args);
    let size = Room::of(size)?;
    let (expected, room) = bytes::put(expected, room)?;
    let (mode, d) = mode_of(named, args, room)?;
    let wanted = Wanted::Check {
        room: size,
        expected,
    };
    Some(Call { mode, d, wanted })
}

// The call of a kind, with the fields behind it.
pub(crate) fn call_of<'a>(kind: &[u8], args: &[u8], room: &'a mut [u8]) -> Option<Call<'a>> {
    match kind {
        b"list" => stream_of(Named::List, args, room),
        b"list-check" => check_of(Named::List, args, room),
        b"list-measure" => measure_of(Named::List, args, room),
        b"signature" => stream_of(Named::Signature, args, room),
        b"signature-check" => check_of(Named::Signature, args, room),
        b"signature-measure" => measure_of(Named::Signature, args, room),
        _ => None,
    }
}

// Makes a call that writes, in a room for the output, and prints what it gives back: a stream, or a check where a digest is expected.
fn print_written<W: Write>(
    writer: &mut W,
    mode: Mode,
    d: &[u8],
    expected: Option<&[u8]>,
    room: Room,
    out: &mut [u8; MOST_ROOM],
) -> io::Result<()> {
    match expected {
        None => calls::print_stream(writer, mode, d, &mut out[..room.size]),
        Some(expected) => calls::print_check(writer, mode, d, expected, &mut out[..room.size]),
    }
}

// Makes a call, and prints what it gives back.
pub(crate) fn print_call<W: Write>(writer: &mut W, call: Call) -> io::Result<()> {
    let Call { mode, d, wanted } = call;
    let (room, expected) = match wanted {
        Wanted::Measure => return calls::print_measure(writer, mode, d),
        Wanted::Stream(room) => (room, None),
        Wanted::Check { room, expected } => (room, Some(expected)),
    };
    // one array for both: with one in each arm the stack would hold two
    let mut out = [0u8; MOST_ROOM];
    print_written(writer, mode, d, expected, room, &mut out)
}
