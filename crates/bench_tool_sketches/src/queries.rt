// The commands that change nothing.
pub use crate::pictures::{map, one_cell};
pub use crate::readings::{mean, read};
use crate::slots::View;
use crate::trouble::Trouble;
use crate::verdicts;
use clock::SubWindowClock;
use program_text::print::HexBytes;
use sketch::Finding;
use std::io;

pub fn audit<'a>(rt: &impl Print, view: View<'_>) -> Result<(), Trouble<'a>> {
    let View { sketch, grid } = view;
    let answer = sketch_queries::audit(sketch, grid);
    verdicts::accepted(answer.verdict)?;
    match answer.audit {
        Finding::Sound => println!(rt; "ok sound")?,
        Finding::Unsound(index) => tell_unsound(rt, sketch.cols, index)?,
    }
    Ok(())
}

// Where the cell stands, as document 02, T-09, has it: the first in grid order. A sketch that was audited has columns.
fn tell_unsound(rt: &impl Print, cols: usize, index: usize) -> io::Result<()> {
    let cols = cols.max(1);
    println!(rt;
        "ok unsound row={} column={} index={index}",
        index / cols,
        index % cols
    )
}

pub fn zoom<'a>(rt: &impl Print, view: View<'_>) -> Result<(), Trouble<'a>> {
    let answer = sketch_queries::max_zoom(view.sketch, view.grid);
    verdicts::accepted(answer.verdict)?;
    println!(rt; "ok zoom={}", answer.zoom)?;
    Ok(())
}

pub fn dump(rt: &impl Print, view: View<'_>) -> io::Result<()> {
    let View { sketch, grid } = view;
    let now = clock_calls::n(sketch.clock);
    let moment = moment(sketch.clock);
    let state = sketch.rounding.state;
    let (n, grid) = (now.n, HexBytes(grid));
    println!(rt; "ok clock={moment} n={n} state=0x{state:016x} grid={grid}")
}

// What a clock has seen, or its now.
fn moment(clock: SubWindowClock) -> u64 {
    match clock {
        SubWindowClock::CountBased { seen, .. } => seen,
        SubWindowClock::TimeBased { now, .. } => now,
    }
}
