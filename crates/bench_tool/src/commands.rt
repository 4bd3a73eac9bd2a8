// A line: which command it is, whether it has the words and the sketch that the command needs, and the command.
use crate::{asking, files, watching};
use bench_tool_sketches::kept_lists::KeptLists;
use bench_tool_sketches::line::Line;
use bench_tool_sketches::slots::Bench;
use bench_tool_sketches::trouble::Trouble;
use bench_tool_sketches::usage::Command;
use bench_tool_sketches::{card, cases, fresh, items, merge, queries, usage};
use std::alloc::{AllocError, Global};
use std::io;
use std::rt::Files;

// The sketches, and the room for a store.
#[derive(Drop)]
pub struct Tool {
    bench: Bench,
    store: Vec<u8>,
}

impl Tool {
    pub fn new(alloc: Global) -> Result<Tool, AllocError> {
        Ok(Tool {
            bench: Bench::new(alloc)?,
            // The store of a grid of 1 MiB has 1,065,984 bytes; the one byte more shows a file that is longer.
            store: vec![in alloc; 0u8; 1065985]?,
        })
    }
}

fn say(rt: &impl Print, line: Line<'_>) -> io::Result<()> {
    rt.write_all(line.rest(1))?;
    println!(rt)
}

// What the command does, or why it does nothing.
fn obey<'l, R: Files + Print + Alloc>(
    rt: &R,
    command: Command,
    line: Line<'l>,
    tool: &mut Tool,
    lists: &mut KeptLists,
) -> Result<(), Trouble<'l>> {
    let Tool { bench, store } = tool;
    match command {
        Command::New => fresh::new(rt, line, bench),
        Command::Update => items::update(rt, line, bench.kept_of(command, line)?),
        Command::Updates => items::updates(rt, line, bench.kept_of(command, line)?),
        Command::UpdateAt => items::update_at(rt, line, bench.kept_of(command, line)?),
        Command::Advance => items::advance(rt, line, bench.kept_of(command, line)?),
        Command::Merge => merge::merge(rt, line, bench, store),
        Command::Read => queries::read(rt, line, bench.view_of(command, line)?),
        Command::Mean => queries::mean(rt, line, bench.view_of(command, line)?),
        Command::Cell => queries::one_cell(rt, line, bench.view_of(command, line)?),
        Command::Grid => queries::map(rt, bench.view_of(command, line)?),
        Command::Audit => queries::audit(rt, bench.view_of(command, line)?),
        Command::Zoom => queries::zoom(rt, bench.view_of(command, line)?),
        Command::Dump => Ok(queries::dump(rt, bench.view_of(command, line)?)?),
        Command::Watch => watching::watch(rt, line, bench.kept_of(command, line)?, lists.of(line)),
        Command::Ask => asking::ask(rt, line, bench.kept_of(command, line)?, lists.of(line)),
        Command::Save => files::save(rt, line, bench.view_of(command, line)?, store),
        Command::Load => files::load(rt, line, bench.place_of(command, line)?, store),
        Command::SetClock => cases::set_clock(rt, line, bench.kept_of(command, line)?),
        Command::SetState => cases::set_state(rt, line, bench.kept_of(command, line)?),
        Command::SetGrid => cases::set_grid(rt, line, bench.kept_of(command, line)?),
        Command::Card => Ok(card::card(rt)?),
        Command::Say => Ok(say(rt, line)?),
        Command::Help => Ok(usage::help(rt)?),
    }
}

fn answer<'l, R: Files + Print + Alloc>(
    rt: &R,
    line: Line<'l>,
    tool: &mut Tool,
    lists: &mut KeptLists,
) -> Result<(), Trouble<'l>> {
    let name = line.word(0);
    if name.is_empty() {
        return Ok(());
    }
    let command = Command::from_word(name).ok_or(Trouble::NoCommand)?;
    obey(rt, command, line, tool, lists)
}

// One line of the input.
pub fn run<R: Files + Print + Alloc>(
    rt: &R,
    whole: &[u8],
    tool: &mut Tool,
    lists: &mut KeptLists,
) -> io::Result<()> {
    match answer(rt, Line::new(whole), tool, lists) {
        Ok(()) => Ok(()),
        Err(trouble) => trouble.tell(rt),
    }
}
