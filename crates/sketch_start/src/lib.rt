// Document 01, "Sketch and grid": a fresh start.
#![tactic(auto)]

mod judge;

ghost use Rattle.std.specs.Prelude.{◌≡◌};
ghost use Rattle.sketch.specs.Refusals.{sketch_outcome, fresh_call};

use cell::MicroParams;
use clock::SubWindowClock;
use rounding::Rounding;
use sketch::{MicroCm, SketchAnswer};
use sketch_judging::answer;

// A fresh sketch, and every byte of the lent grid 0. Any seed will do. A refused start leaves the grid as it was, and
// gives in place of a sketch one that every call refuses.
pub fn with_dimensions(
    rows: usize,
    cols: usize,
    params: MicroParams,
    clock: SubWindowClock,
    seed: u64,
    grid: &mut [u8],
) -> SketchAnswer
    ensures { sketch_outcome result grid.new ≡ fresh_call rows cols params clock seed grid.old }
{
    let verdict = judge::start(rows, cols, params, clock, grid.len());
    if !verdict.accepted() {
        return answer::undrawn(verdict, answer::no_sketch());
    }
    cell_layout::fields::zero_all(grid);
    answer::undrawn(
        verdict,
        MicroCm {
            rows,
            cols,
            params,
            clock: clock_steps::worker::started(clock),
            rounding: Rounding::new(seed),
        },
    )
}
