// Published vectors: NIST's examples for SHA-256, and messages around the block's and the padding's edges.
use crate::parts;
use crate::print::{Hex, Numbers};
use digest::message;
use std::io;
use std::io::Write;

// The sizes of the parts that each message is fed in; 0 is whole: the number that its line prints, which an Option would give back.
const PARTS: [usize; 9] = [0, 1, 7, 55, 56, 63, 64, 65, 1000];

// The lengths of the messages of one letter: about one block, and about two.
const LENGTHS: [usize; 13] = [1, 54, 55, 56, 57, 63, 64, 65, 119, 120, 127, 128, 129];

// A message, whole and in parts of each size. A line: its name and length, the parts' size, the answer, the digest.
fn run_one<W: Write>(writer: &mut W, name: &str, text: &[u8]) -> io::Result<()> {
    for size in PARTS {
        let hashed = if size == 0 {
            message::sha256(text)
        } else {
            parts::in_parts(text, size)
        };
        let length = text.len();
        let answer = Numbers(hashed.answer);
        let digest = Hex(hashed.digest);
        writeln!(writer, "{name} {length} {size} {answer} {digest}")?;
    }
    Ok(())
}

// Messages of one letter, of each of the lengths.
fn run_lengths<W: Write>(writer: &mut W, letters: &[u8]) -> io::Result<()> {
    for n in LENGTHS {
        if n <= letters.len() {
            run_one(writer, "letters", &letters[..n])?;
        }
    }
    Ok(())
}

// A million times the letter a.
fn million() -> [u8; 1000000] {
    [b'a'; 1000000]
}

pub(crate) fn run<W: Write>(writer: &mut W) -> io::Result<()> {
    run_one(writer, "empty", b"")?;
    run_one(writer, "abc", b"abc")?;
    run_one(
        writer,
        "448-bits",
        b"abcdbcdecdefdefgefghfghighijhijkijkljklmklmnlmnomnopnopq",
    )?;
    run_one(
        writer,
        "896-bits",
        b"abcdefghbcdefghicdefghijdefghijkefghijklfghijklmghijklmnhijklmnoijklmnopjklmnopqklmnopqrlmnopqrsmnopqrstnopqrstu",
    )?;
    let letters = million();
    run_lengths(writer, &letters)?;
    run_one(writer, "million", &letters)
}
