// One sketch added to another.
use crate::line::Line;
use crate::slots::Bench;
use crate::trouble::Trouble;
use crate::usage::Command;
use crate::{items, verdicts};

// The other grid is copied first, into `room`: the other sketch may be the same one.
pub fn merge<'l>(
    rt: &impl Print,
    line: Line<'l>,
    bench: &mut Bench,
    room: &mut [u8],
) -> Result<(), Trouble<'l>> {
    bench.kept_of(Command::Merge, line)?;
    let its = bench.other(line)?;
    let length = its.grid.len().min(room.len());
    let other = its.sketch;
    let grid = &mut room[..length];
    grid.copy_from_slice(&its.grid[..length]);
    let kept = bench.kept_of(Command::Merge, line)?;
    let answer = sketch_merging::merge(kept.slot.sketch, kept.grid, other, &grid[..]);
    verdicts::accepted(answer.verdict)?;
    kept.slot.sketch = answer.sketch;
    items::tell_counted(rt, answer.sketch, answer.draws, answer.lost)?;
    Ok(())
}
