// Document 01, "Sketch and grid": an item goes into the key's cell of each row, in order, all drawing from one random
// state; and every cell crosses, in grid order. Callers have judged the sketch and the cells.
ghost use Rattle.std.specs.Prelude.{◌≡◌, true, ◌+◌, ◌*◌, ◌≤◌, ◌<◌, length};
ghost use Rattle.cell.specs.Cell.{slot_of, sound_of};
ghost use Rattle.cell.specs.Workers.{step_of};
ghost use Rattle.sketch.specs.Sketch.{cells_of, cell_of, key_cells, insert_at, insert_each};
ghost use Rattle.sketch.specs.Workers.{Ready, Readable, SoundCells, pass_of};
ghost use Rattle.sketch_counting_passes.specs.Workers.{cross_cells};

use cell::{Drawn, MicroParams};
use sketch::{MicroCm, Passed};
use sketch_judging::grid;

fn insert_at(
    sketch: MicroCm,
    grid: &mut [u8],
    index: usize,
    n: u64,
    slot: usize,
    state: u64,
) -> Drawn
    requires ready { Ready sketch (length grid.old) × (index < cells_of sketch) × (slot ≡ slot_of sketch.params.t n) }
    requires index_value { sound_of sketch.params.t sketch.params.c (cell_of sketch grid.old index) ≡ true }
    ensures result_after { step_of grid.new result ≡ insert_at sketch n index grid.old state }
    ensures draws_bound { result.draws ≤ 4098 }
{
    let MicroParams { t, c } = sketch.params;
    let start = grid::start_of(sketch, grid.len(), index);
    let end = start + cell_layout::fields::depth(t);
    cell_insertion::worker::insert(&mut grid[start..end], t, c, n, slot, state)
}

// The key's cell of each row, in order.
pub fn insert_each(sketch: MicroCm, key: &[u32], grid: &mut [u8], n: u64, state: u64) -> Passed
    requires { Readable sketch key.now grid.old }
    ensures result_after { pass_of grid.new result ≡ insert_each sketch n (key_cells sketch 0 key.now) grid.old state }
    ensures draws_bound { (result.draws ≤ 128 * 4098) × (result.lost ≤ 128) }
{
    let slot = cell_layout::fields::slot(sketch.params.t, n);
    let mut after = state;
    let mut draws: u64 = 0;
    let mut lost: u64 = 0;
    for row in 0..key.len() {
        let index = grid::key_cell(sketch, &key[..], row);
        let drawn = insert_at(sketch, grid, index, n, slot, after);
        after = drawn.state;
        draws += u64::from(drawn.draws);
        lost += u64::from(drawn.lost);
    }
    Passed {
        state: after,
        draws,
        lost,
    }
}

// So many cells cross, in grid order.
pub fn cross_cells(
    grid: &mut [u8],
    t: usize,
    c: u32,
    count: usize,
    n: u64,
    crossed: u64,
    state: u64,
) -> Passed
    requires { SoundCells t c count grid.old × (crossed ≤ n) }
    ensures result_after { pass_of grid.new result ≡ cross_cells t c count n crossed grid.old state }
    ensures draws_bound { (result.draws ≤ count * 4099) × (result.lost ≤ count) }
{
    let depth = cell_layout::fields::depth(t);
    let slot = cell_layout::fields::slot(t, n - crossed);
    let mut after = state;
    let mut draws: u64 = 0;
    // Of 32 bits, as a cell's is. With two sums of 64 the compiler reads a cell's draws and loss as one word, and the processor
    // waits for both writes.
    let mut lost: u32 = 0;
    // By index: behind a loop over `chunks_exact_mut` a proof knows the grid's length, and not its bytes.
    for index in 0..count {
        let start = index * depth;
        let end = start + depth;
        let drawn = cell_crossing_steps::worker::enter_sub_window(
            &mut grid[start..end],
            t,
            c,
            n,
            crossed,
            slot,
            after,
        );
        after = drawn.state;
        draws += u64::from(drawn.draws);
        lost += drawn.lost;
    }
    Passed {
        state: after,
        draws,
        lost: u64::from(lost),
    }
}
