// Long runs of draws and of rounded divisions through the public calls, then single calls at the edges. What all this
// must print was made by a C program that shares nothing with it (docs/DRAWS.md).
#![tactic(auto)]

mod course;
mod division;
mod sequence;
mod verdicts;

use division::Operand::{Always, Drawn};
use std::io;

const HALF: u64 = 0xFFFF_FFFF;

const MOST: u64 = u64::MAX;

fn sequences(rt: &impl Print) -> io::Result<()> {
    for seed in [0, 1, 2, 0x0123_4567_89AB_CDEF, MOST] {
        sequence::run(rt, seed)?;
    }
    Ok(())
}

fn divisions(rt: &impl Print) -> io::Result<()> {
    for (title, value, divisor) in [
        ("draws / 1", Drawn(MOST), Always(1)),
        ("draws / 2", Drawn(MOST), Always(2)),
        ("draws / 3", Drawn(MOST), Always(3)),
        ("draws / 256", Drawn(MOST), Always(256)),
        ("draws / (2^32 - 1)", Drawn(MOST), Always(HALF)),
        ("draws / (2^64 - 1)", Drawn(MOST), Always(MOST)),
        ("0 / draws", Always(0), Drawn(MOST)),
        ("(2^64 - 1) / draws", Always(MOST), Drawn(MOST)),
        ("draws / draws", Drawn(MOST), Drawn(MOST)),
    ] {
        division::run(rt, title, value, divisor)?;
    }
    Ok(())
}

// Both numbers below 2^32. One low byte in 256 is 0: that division is refused, and the run goes on from the state that
// the refusal left.
fn small_divisions(rt: &impl Print) -> io::Result<()> {
    division::run(rt, "low halves of draws / 2", Drawn(HALF), Always(2))?;
    division::run(
        rt,
        "low halves of draws / low bytes of draws",
        Drawn(HALF),
        Drawn(0xFF),
    )
}

fn edges(rt: &impl Print) -> io::Result<()> {
    for (value, divisor, state) in [
        (0, 1, 1),
        (0, MOST, 1),
        (1, MOST, 1),
        (MOST, 1, 1),
        (MOST, 2, 1),
        (MOST, MOST, 1),
        (HALF, HALF, 1),
    ] {
        division::single(rt, value, divisor, state)?;
    }
    Ok(())
}

// State 0, divisor 0, and both, of numbers of 32 bits and of 64.
fn refusals(rt: &impl Print) -> io::Result<()> {
    sequence::single(rt, 0)?;
    for (value, divisor, state) in [
        (7, 2, 0),
        (7, 0, 1),
        (7, 0, 0),
        (MOST, 2, 0),
        (MOST, 0, 1),
        (MOST, 0, 0),
    ] {
        division::single(rt, value, divisor, state)?;
    }
    Ok(())
}

fn main(rt: HostRuntime) -> io::Result<()> {
    sequences(&rt)?;
    divisions(&rt)?;
    small_divisions(&rt)?;
    edges(&rt)?;
    refusals(&rt)
}
