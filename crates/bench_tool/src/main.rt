// The bench tool: commands on standard input, a line each, and an answer to each on standard output. docs/TOOL.md has the
// commands; the file `stdin` beside this folder is a tour of them.
//
// It holds up to four sketches, a to d, and does nothing to them but by the public calls of the core.
#![tactic(auto)]

mod asking;
mod commands;
mod files;
mod input;
mod watching;

use bench_tool_sketches::kept_lists::KeptLists;
use commands::Tool;
use input::Stop;
use program_text::print;
use std::io;

fn main(rt: HostRuntime) -> io::Result<()> {
    let mut tool = Tool::new(rt.alloc())?;
    let mut lists = KeptLists::new();
    // A line has to fit this, its line end too.
    let mut lines = [0u8; 65536];
    match input::all(&rt, &mut rt.stdin(), &mut lines, &mut tool, &mut lists) {
        Ok(()) => Ok(()),
        Err(Stop::Input(error)) => Err(error),
        Err(Stop::Output(error)) => {
            print::failure(&rt, "bench_tool: standard output cannot be written", error)
        }
    }
}
