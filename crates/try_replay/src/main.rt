// Replays the recorded answers of the published Rust through our calls, and compares them byte for byte. The records
// stand in files in the folder that the program is run in; docs/ORACLE.md has their formats.
#![tactic(auto)]

mod answer;
mod cells;
mod clocks;
mod draws;
mod replay;
mod report;
mod sketches;

use cells::Cells;
use clocks::Clocks;
use draws::Draws;
use program_text::print;
use replay::{Records, Tally};
use sketches::Sketches;
use std::io::Read;
use std::rt::Files;
use std::{fs, io};

fn main(rt: HostRuntime) -> io::Result<()> {
    replay_named(&rt, "draws", &mut Draws)?;
    replay_named(&rt, "cells", &mut Cells::new())?;
    replay_named(&rt, "clock", &mut Clocks)?;
    replay_sketches(&rt, "sketches")
}

fn replay_named<R: Files + Print + Eprint + Alloc>(
    rt: &R,
    name: &str,
    records: &mut impl Records,
) -> io::Result<()> {
    let Some(file) = opened(rt, name)? else {
        return Ok(());
    };
    replay_file(rt, name, file, records)
}

fn replay_sketches<R: Files + Print + Eprint + Alloc>(rt: &R, name: &str) -> io::Result<()> {
    let Some(file) = opened(rt, name)? else {
        return Ok(());
    };
    // As large as the format lets the grids of the two slots be.
    let mut first = vec![in rt.alloc(); 0u8; 524288]?;
    let mut second = [0u8; 16416];
    replay_file(rt, name, file, &mut Sketches::new(&mut first, &mut second))
}

// Of a file that cannot be opened only that is told.
fn opened<R: Files + Eprint + Alloc>(rt: &R, name: &str) -> io::Result<Option<R::File>> {
    match fs::open(rt, name) {
        Ok(file) => Ok(Some(file)),
        Err(e) => {
            print::failure(rt, name, e)?;
            Ok(None)
        }
    }
}

fn replay_file<F: Read + Drop>(
    rt: &impl Print,
    name: &str,
    mut file: F,
    records: &mut impl Records,
) -> io::Result<()> {
    let Tally { calls, wrong } = replay::all(rt, &mut file, records)?;
    println!(rt; "{name}: {calls} calls, {wrong} wrong")
}
