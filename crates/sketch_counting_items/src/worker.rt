// Document 01, "Sketch and grid": an item and a move of the clock, judged together and then done in the order that the
// item's own sub-window gives.
ghost use Rattle.std.specs.Prelude.{◌≡◌, ◌+◌, ◌*◌, ◌^◌, ◌<◌, ◌≤◌};
ghost use Rattle.refusal.specs.Refusals.{refuse};
ghost use Rattle.sketch.specs.Sketch.{cells_of};
ghost use Rattle.sketch.specs.Refusals.{item_verdict};
ghost use Rattle.sketch.specs.Workers.{pass_of};
ghost use Rattle.sketch_counting_items.specs.Workers.{SoundIf, Moves, Countable, windows, cross_if, in_a_row, item_of, item_counted};

use crate::judge;
use cell::MicroParams;
use clock::SubWindowClock;
use refusal::Verdict;
use sketch::{MicroCm, Passed};
use sketch_counting_passes::worker;

// What an item did. The sketch is not in it: whole, it would be copied on the way.
#[derive(Clone, Copy)]
pub struct Counted {
    pub verdict: Verdict,
    pub passed: Passed,
}

// Where n stays no cell is looked at.
fn moved(sketch: MicroCm, grid: &mut [u8], moves: bool, old: u64, new: u64, state: u64) -> Passed
    requires { SoundIf moves sketch grid.old × (old ≤ new) }
    ensures result_after { pass_of grid.new result ≡ cross_if moves sketch old new grid.old state }
    ensures draws_bound { (result.draws ≤ cells_of sketch * 4099) × (result.lost ≤ cells_of sketch) }
{
    if moves {
        let begun = new - old;
        let MicroParams { t, c } = sketch.params;
        let cells = sketch.rows * sketch.cols;
        return worker::cross_cells(grid, t, c, cells, new, begun, state);
    }
    Passed {
        state,
        draws: 0,
        lost: 0,
    }
}

// What three passes, one after another, leave: the last one's state, and the draws and the losses of all.
fn in_a_row(first: Passed, second: Passed, third: Passed) -> Passed
    requires draws_bound { first.draws + second.draws + third.draws < 2 ^ 64 }
    requires lost_bound { first.lost + second.lost + third.lost < 2 ^ 64 }
    ensures { result ≡ in_a_row first second third }
{
    Passed {
        state: third.state,
        draws: first.draws + second.draws + third.draws,
        lost: first.lost + second.lost + third.lost,
    }
}

// An accepted item: the cells cross before it where it is not of the old sub-window, and after it where it is not of the new.
fn in_order(sketch: MicroCm, key: &[u32], grid: &mut [u8], old: u64, new: u64, n: u64) -> Passed
    requires { Countable sketch key.now grid.old (windows old new n) }
    ensures { pass_of grid.new result ≡ item_of sketch key.now (windows old new n) grid.old }
{
    let before = moved(sketch, grid, n != old, old, new, sketch.rounding.state);
    let recorded = worker::insert_each(sketch, &key[..], grid, n, before.state);
    let last = moved(sketch, grid, new != n, old, new, recorded.state);
    in_a_row(before, recorded, last)
}

// An item for a sketch that takes the clock `after` by it: judged first, and written only where it is accepted.
pub fn count(
    sketch: MicroCm,
    key: &[u32],
    grid: &mut [u8],
    after: SubWindowClock,
    old: u64,
    new: u64,
    n: u64,
    number: u8,
    holds: bool,
) -> Counted
    requires { Moves sketch after (windows old new n) }
    ensures verdict_value { result.verdict ≡ item_verdict sketch key.now grid.old after (refuse number holds) }
    ensures passed_after { pass_of grid.new result.passed ≡ item_counted result.verdict sketch key.now (windows old new n) grid.old }
{
    let verdict = judge::item(
        sketch,
        &key[..],
        &grid[..],
        after,
        new != old,
        number,
        holds,
    );
    if !verdict.accepted() {
        return Counted {
            verdict,
            passed: Passed {
                state: sketch.rounding.state,
                draws: 0,
                lost: 0,
            },
        };
    }
    Counted {
        verdict,
        passed: in_order(sketch, &key[..], grid, old, new, n),
    }
}
