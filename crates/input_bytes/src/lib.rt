#![tactic(auto)]
// What the programs read: the bytes of a reader, into a room that the caller has.
ghost use Rattle.std.specs.Prelude.{◌<◌, ◌≤◌, length, take, IfOk};
ghost use Rattle.std.specs.Io.KnownBytes.{Consumes, IsAtEnd};

use std::io;
use std::io::Read;

// Reads until the room is full or the reader is at its end. How many bytes were put at the start of the room.
pub fn read_full<R: Read>(reader: &mut R, room: &mut [u8]) -> io::Result<usize>
    ensures inside { IfOk result (λ n. n ≤ length room.new) }
    ensures bytes { IfOk result (λ n. Consumes (R.remaining reader.old) (R.remaining reader.new) (take n room.new)) }
    ensures whole { IfOk result (λ n. n < length room.new → IsAtEnd (R.remaining reader.new)) }
{
    // The library's `read_exact` gives no count where the reader ends before the room is full, and `read_to_end` fills a Vec.
    let mut filled = 0;
    while filled < room.len() {
        let n = reader.read(&mut room[filled..])?;
        if n == 0 {
            return Ok(filled);
        }
        filled += n;
    }
    Ok(filled)
}

#[cfg(test)]
mod tests {
    use super::*;

    #[test]
    fn reads_on_after_a_short_read(rt: HostRuntime) -> io::Result<()> {
        let mut room = [0u8; 5];
        let mut reader = b"ab".as_slice().chain(b"cd".as_slice());
        assert_eq!(rt; read_full(&mut reader, &mut room)?, 4);
        assert_eq!(rt; room, *b"abcd\0");
        Ok(())
    }

    #[test]
    fn leaves_what_has_no_room(rt: HostRuntime) -> io::Result<()> {
        let mut room = [0u8; 2];
        let mut reader = b"abc".as_slice();
        assert_eq!(rt; read_full(&mut reader, &mut room)?, 2);
        assert_eq!(rt; room, *b"ab");
        assert_eq!(rt; reader.len(), 1);
        Ok(())
    }
}
