// Which of the watched codes have newly reached their limit.
use bench_tool_sketches::kept_lists::Lists;
use bench_tool_sketches::line::Line;
use bench_tool_sketches::slots::{Kept, Slot};
use bench_tool_sketches::trouble::Trouble;
use bench_tool_sketches::usage::Command;
use bench_tool_sketches::verdicts;
use program_text::print::Joined;
use sketch::MicroCm;
use std::io;

// The most codes that are watched.
const CODES: usize = 64;

// A sketch, and its watched codes as the core keeps them.
#[derive(Clone, Copy)]
struct Watched<'a> {
    sketch: MicroCm,
    grid: &'a [u8],
    columns: &'a [u32; 8192],
    limits: &'a [u64; CODES],
}

fn tell_code(rt: &impl Print, watched: Watched<'_>, code: u8) -> io::Result<()> {
    let Watched {
        sketch,
        grid,
        columns,
        limits,
    } = watched;
    let place = usize::from(code);
    let from = place.saturating_mul(sketch.rows);
    let key = columns
        .get(from..from.saturating_add(sketch.rows))
        .unwrap_or(&[]);
    let limit = limits.get(place).copied().unwrap_or(0);
    let answer = sketch_reading::estimate(sketch, key, grid);
    let key = Joined {
        columns: key,
        between: ",",
    };
    println!(rt;
        "  code {code} columns={key} over_items={} limit={limit}",
        answer.over
    )
}

// The bytes of the list, 64 if the line does not say: no list needs more.
fn room_in(line: Line<'_>) -> Option<usize> {
    if line.count() == 2 {
        return Some(CODES);
    }
    Some(line.at_most(2, CODES as u64)? as usize)
}

pub fn ask<'l>(
    rt: &impl Print,
    line: Line<'l>,
    kept: Kept<'_>,
    lists: &Lists,
) -> Result<(), Trouble<'l>> {
    let room = room_in(line).ok_or(Trouble::Usage(Command::Ask))?;
    let mut list = [0u8; CODES];
    let lent = &mut list[..room.min(CODES)];
    let Kept { slot, grid } = kept;
    let Lists { columns, limits } = lists;
    let Slot { sketch, watch, .. } = *slot;
    let answer = codes_asking::ask(sketch, watch, columns, limits, grid, lent);
    slot.watch = answer.watch;
    verdicts::accepted(answer.verdict)?;
    println!(rt; "ok listed={}", answer.listed)?;
    let watched = Watched {
        sketch,
        grid,
        columns,
        limits,
    };
    for code in list.iter().take(answer.listed) {
        tell_code(rt, watched, *code)?;
    }
    Ok(())
}
