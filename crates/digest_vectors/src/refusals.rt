// Every kind of 25, and the neighbour that is accepted.
use crate::print::{Hex, Numbers};
use digest::running::{LIMIT, Running};
use std::cmp::Ordering;
use std::io::Write;
use std::{array, io};

// A running digest of arbitrary words: `count` letters wait, and `after` stands behind them.
fn state(count: usize, after: u8, total: u64) -> Running {
    Running {
        words: [1, 2, 3, 4, 5, 6, 7, 0xffffffff],
        waiting: array::from_fn(|i| match i.cmp(&count) {
            Ordering::Less => b'a',
            Ordering::Equal => after,
            Ordering::Greater => 0,
        }),
        count,
        total,
    }
}

// Whether the running digest that came back is the one that went in.
fn kept(before: &Running, after: &Running) -> &'static str {
    if before == after { "kept" } else { "changed" }
}

fn run_finish<W: Write>(writer: &mut W, name: &str, s: Running) -> io::Result<()> {
    let done = s.finish();
    let answer = Numbers(done.answer);
    let digest = Hex(done.digest);
    let kept = kept(&s, &done.running);
    writeln!(writer, "{name} finish {answer} {kept} {digest}")
}

// Feeds s, and finishes what comes back.
fn run_feed<W: Write>(writer: &mut W, name: &str, s: Running, bytes: &[u8]) -> io::Result<()> {
    let fed = s.feed(bytes);
    let next = fed.running;
    let length = bytes.len();
    let answer = Numbers(fed.answer);
    let kept = kept(&s, &next);
    let count = next.count;
    let digest = Hex(next.finish().digest);
    writeln!(
        writer,
        "{name} feed {length} {answer} {kept} {count} {digest}"
    )
}

fn run_one<W: Write>(writer: &mut W, name: &str, s: Running, bytes: &[u8]) -> io::Result<()> {
    run_finish(writer, name, s)?;
    run_feed(writer, name, s, bytes)
}

// 25: "a running digest is not possible" (RULES, 9.3), with possible neighbours.
fn run_possible<W: Write>(writer: &mut W) -> io::Result<()> {
    run_one(writer, "possible", state(3, 0, 3), b"bbbbb")?;
    run_one(
        writer,
        "possible-after-blocks",
        state(63, 0, 191),
        &[b'b'; 200],
    )?;
    run_one(writer, "count-above-total", state(1, 0, 0), b"b")?;
    run_one(writer, "count-below-total", state(2, 0, 3), b"b")?;
    run_one(writer, "count-of-a-block", state(64, 0, 64), b"b")?;
    run_one(writer, "byte-past-the-waiting", state(3, 1, 3), b"b")
}

// 25: "its total is past 2^61 - 1 bytes, or would be after the feeding that is asked for" (RULES, 9.3), with neighbours within the limit.
fn run_totals<W: Write>(writer: &mut W) -> io::Result<()> {
    run_one(writer, "total-at-the-limit", state(63, 0, LIMIT), b"")?;
    run_one(
        writer,
        "total-at-the-limit-and-one-more",
        state(63, 0, LIMIT),
        b"b",
    )?;
    run_one(writer, "total-past-the-limit", state(0, 0, LIMIT + 1), b"")?;
    run_one(writer, "largest-total", state(63, 0, u64::MAX), b"b")?;
    run_one(
        writer,
        "feeding-to-the-limit",
        state(62, 0, LIMIT - 1),
        b"b",
    )?;
    run_one(
        writer,
        "feeding-past-the-limit",
        state(62, 0, LIMIT - 1),
        b"bb",
    )
}

pub(crate) fn run<W: Write>(writer: &mut W) -> io::Result<()> {
    run_possible(writer)?;
    run_totals(writer)
}
