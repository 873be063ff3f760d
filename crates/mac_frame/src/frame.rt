// The stream program, on slices: a frame of a list and a data set in, the text to print out.
ghost use Rattle.std.specs.Prelude.{◌≡◌, ◌+◌, ◌*◌, ◌^◌, ◌≤◌, length};
ghost use Rattle.mac_frame.specs.Frame as Spec;
ghost use Rattle.mac_frame.specs.Inner.Puts.{Puts, Holds};

use crate::text::Text;
use answer::refusal::Refusal;
use mac::list_mode;

const INPUT_LIMIT: usize = 65536;

// The big-endian length at an index: one line by the library, as the word of a block is in digest, which has its own definition.
#[tactic(auto, unfolding(crate::specs::Frame::big32))]
fn big32(s: &[u8], i: usize) -> u32
    requires { i + 4 ≤ length s.now }
    ensures { result ≡ Spec.big32 s.now i }
{
    u32::from_be_bytes([s[i], s[i + 1], s[i + 2], s[i + 3]])
}

// Where the list ends in the frame s: a number, of which `FramesRead` and `OnlyFrames` speak.
fn frame_of(s: &[u8]) -> Option<usize>
    ensures { result ≡ Spec.frame_of s.now }
{
    let n = s.len();
    if INPUT_LIMIT < n {
        return None;
    }
    if n < 5 {
        return None;
    }
    if s[0] != 1 {
        return None;
    }
    let list = big32(s, 1) as usize;
    if n < 9 + list {
        return None;
    }
    let set = big32(s, 5 + list) as usize;
    if n != 9 + list + set {
        return None;
    }
    Some(5 + list)
}

// The output room of list mode.
fn output() -> [u8; 65536] {
    [0u8; 65536]
}

// Runs list mode on the frame whose list ends at `end`, and puts what is to be printed: the answer, which is asked for its number since it is
// printed either way, and the stream.
fn report(input: &[u8], end: usize, text: &mut Text)
    requires { Holds input.now end × text.old.size ≡ 0 }
    ensures { Puts text.old (Spec.report (Spec.frame_call input.now end)) text.new }
{
    let mut out = output();
    let from = end + 4;
    let answer = list_mode::list_stream(&input[5..end], &input[from..], &mut out);
    text.put_line(answer);
    if answer.number == 0 {
        text.put_lines(&out[..answer.length]);
    }
}

// Puts what the stream program prints for its input.
fn print_into(input: &[u8], text: &mut Text)
    requires { text.old.size ≡ 0 }
    ensures { Puts text.old (Spec.printed input.now) text.new }
{
    match frame_of(input) {
        None => text.put_line(Refusal::BadFrame.at(0)),
        Some(end) => report(input, end, text),
    }
}

// What the stream program prints for its input, and how many bytes that is. The text always fits: a program lends this very array.
pub fn print_frame(input: &[u8], text: &mut [u8; 135168]) -> usize
    ensures { Spec.Printed input.now text.old result text.new }
{
    let mut out = Text {
        room: text,
        size: 0,
    };
    print_into(input, &mut out);
    out.size
}
