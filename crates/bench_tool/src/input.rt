// The lines of standard input, one command each.
use crate::commands;
use crate::commands::Tool;
use bench_tool_sketches::kept_lists::KeptLists;
use program_text::lines::{LineError, LineReader};
use std::io;
use std::io::Read;
use std::rt::Files;

// What ends the tool before the input does: what can't be read, or written.
#[derive(Clone, Copy)]
pub enum Stop {
    Input(io::Error),
    Output(io::Error),
}

pub fn all<R: Files + Print + Alloc>(
    rt: &R,
    input: &mut impl Read,
    buffer: &mut [u8],
    tool: &mut Tool,
    lists: &mut KeptLists,
) -> Result<(), Stop> {
    let mut lines = LineReader::new(input, buffer);
    // Nothing says that the input ends, and a loop has to: so it counts to what no input reaches.
    for _ in 0..u64::MAX {
        match lines.next() {
            Ok(Some(line)) => commands::run(rt, line, tool, lists).map_err(Stop::Output)?,
            Ok(None) => break,
            Err(LineError::TooLong) => too_long(rt).map_err(Stop::Output)?,
            Err(LineError::Input(error)) => return Err(Stop::Input(error)),
        }
    }
    Ok(())
}

fn too_long(rt: &impl Print) -> io::Result<()> {
    println!(rt; "error expected a line of at most 65535 bytes")
}
