// Document 01, "Merge", of two sketches: cell by cell in grid order, all drawing from the receiving sketch's random state.
#![tactic(auto)]

pub mod judge;
pub mod pass;

ghost use Rattle.std.specs.Prelude.{◌≡◌};
ghost use Rattle.sketch.specs.Refusals.{sketch_outcome, merge_call};

use sketch::{MicroCm, SketchAnswer};
use sketch_judging::answer;

// Adds the counts of `other` to those of a sketch of the same shape at the same sub-window. `other` is only read, and of
// the sketch only the grid and the random state change.
pub fn merge(sketch: MicroCm, grid: &mut [u8], other: MicroCm, other_grid: &[u8]) -> SketchAnswer
    ensures { sketch_outcome result grid.new ≡ merge_call sketch grid.old other other_grid.now }
{
    let verdict = judge::merge(sketch, &grid[..], other, other_grid);
    if !verdict.accepted() {
        return answer::undrawn(verdict, sketch);
    }
    let clock = sketch.clock;
    let rounding = sketch.rounding;
    let n = clock_steps::worker::sub_window(clock);
    let passed = pass::merge_each(sketch, grid, other_grid, n, rounding.state);
    answer::went_on(sketch, clock, passed)
}
