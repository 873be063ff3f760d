#![tactic(auto)]
// Runs published vectors of SHA-256, whole and in parts, and every kind of refusal with its accepted neighbour.
mod parts;
mod print;
mod refusals;
mod vectors;

use std::io;
use std::io::{BufWriter, Write};

fn main(rt: HostRuntime) -> io::Result<()> {
    let mut writer = BufWriter::new(rt.alloc(), io::writer(&rt))?;
    vectors::run(&mut writer)?;
    refusals::run(&mut writer)?;
    writer.flush()
}
