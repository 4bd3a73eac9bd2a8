// Document 01, "Sketch and grid": the calls that count.
//
// A call judges first and writes after: a refused one leaves the sketch and every byte of the grid as they came. A slice is
// handed on as a part, `&key[..]`: whole, it would be copied through memory at each call.
#![tactic(auto)]

mod answer;

ghost use Rattle.std.specs.Prelude.{◌≡◌};
ghost use Rattle.sketch.specs.Refusals.{sketch_outcome, update_call, update_at_call, advance_call};

use cell::MicroParams;
use sketch::{MicroCm, Passed, SketchAnswer};
use sketch_counting_items::{judge, worker};

// The two calls with an item stay two, as one of both is no plainer: the count and its answer are shared, and the clock's step,
// the item's own sub-window and the kind that is wrong differ.
//
// One item on a clock of items. It is counted in the sub-window that it finds: the tick comes after it.
pub fn update(sketch: MicroCm, key: &[u32], grid: &mut [u8]) -> SketchAnswer
    ensures { sketch_outcome result grid.new ≡ update_call sketch key.now grid.old }
{
    let clock = sketch.clock;
    let after = clock_steps::worker::ticked(clock);
    let old = clock_steps::worker::sub_window(clock);
    let new = clock_steps::worker::next_sub_window(clock, old);
    let wrong = !clock_steps::worker::is_count(clock);
    let counted = worker::count(sketch, &key[..], grid, after, old, new, old, 8, wrong);
    answer::counted(sketch, after, counted)
}

// One item on a clock of time. It is counted in the sub-window of its own time: the clock is moved before it.
pub fn update_at(sketch: MicroCm, key: &[u32], timestamp: u64, grid: &mut [u8]) -> SketchAnswer
    ensures { sketch_outcome result grid.new ≡ update_at_call sketch key.now timestamp grid.old }
{
    let clock = sketch.clock;
    let after = clock_steps::worker::advanced(clock, timestamp);
    let old = clock_steps::worker::sub_window(clock);
    let new = clock_steps::worker::sub_window(after);
    let wrong = clock_steps::worker::is_count(clock);
    let counted = worker::count(sketch, &key[..], grid, after, old, new, new, 8, wrong);
    answer::counted(sketch, after, counted)
}

// Time passes without an item.
pub fn advance_to(sketch: MicroCm, timestamp: u64, grid: &mut [u8]) -> SketchAnswer
    ensures { sketch_outcome result grid.new ≡ advance_call sketch timestamp grid.old }
{
    let clock = sketch.clock;
    let after = clock_steps::worker::advanced(clock, timestamp);
    let old = clock_steps::worker::sub_window(clock);
    let new = clock_steps::worker::sub_window(after);
    let wrong = clock_steps::worker::is_count(clock);
    let verdict = judge::movement(sketch, &grid[..], after, new != old, 8, wrong);
    if !verdict.accepted() {
        return sketch_judging::answer::undrawn(verdict, sketch);
    }
    // Within its sub-window no cell is looked at. The crossing is called here and not by `worker::moved`: with one caller it
    // would be compiled into that, which every update runs through twice.
    if new == old {
        let stayed = Passed {
            state: sketch.rounding.state,
            draws: 0,
            lost: 0,
        };
        return sketch_judging::answer::went_on(sketch, after, stayed);
    }
    let begun = new - old;
    let MicroParams { t, c } = sketch.params;
    let cells = sketch.rows * sketch.cols;
    let crossed = sketch_counting_passes::worker::cross_cells(
        grid,
        t,
        c,
        cells,
        new,
        begun,
        sketch.rounding.state,
    );
    sketch_judging::answer::went_on(sketch, after, crossed)
}
