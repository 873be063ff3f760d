#![tactic(auto)]
// The stream program: reads a frame from standard input and prints the answer of list mode, and the stream in hex.
use input_bytes::read_full;
use mac_frame::frame;
use std::io;

// Arrays of fixed size: one byte more than a frame may have, so that a longer input is seen; and the array that print_frame wants for the text.
fn run(
    rt: &(impl Input + Print),
    input: &mut [u8; 65537],
    text: &mut [u8; 135168],
) -> io::Result<()> {
    let n = read_full(&mut rt.reader(), input)?;
    let size = frame::print_frame(&input[..n], text);
    rt.write_all(&text[..size])
}

fn main(rt: HostRuntime) -> io::Result<()> {
    let mut input = [0u8; 65537];
    let mut text = [0u8; 135168];
    run(&rt, &mut input, &mut text)
}
