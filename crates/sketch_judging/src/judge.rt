// Document 01, "Turning a call back": the verdict of each call on a sketch, lowest number first. Nothing is written here.
ghost use Rattle.std.specs.Prelude.{◌≡◌, true, ◌≤◌, ◌<◌, length};
ghost use Rattle.refusal.specs.declared.Verdict.TheVariants.{Accepted, Unsound};
ghost use Rattle.cell.specs.Cell.{sound_of};
ghost use Rattle.sketch.specs.Sketch.{cells_of, cell_of, key_cells, all_cells};
ghost use Rattle.sketch.specs.Audit.{first_unsound};
ghost use Rattle.sketch.specs.Refusals.{bits_up_to, grid_fits, refuse_settings, refuse_sketch, refuse_key, numbers_verdict, sketch_verdict, all_below, key_fits};
ghost use Rattle.sketch.specs.Workers.{Ready};

use crate::grid;
use cell::MicroParams;
use clock::SubWindowClock;
use refusal::Verdict;
use sketch::MicroCm;

// log2 of cols, and 0 where cols is no power of two from 2 to 65,536.
fn column_bits(cols: usize) -> usize
    ensures { (result ≡ bits_up_to 16 cols) × (result ≤ 16) }
{
    if cols.is_power_of_two() && cols <= 65536 {
        cols.ilog2() as usize
    } else {
        0
    }
}

fn grid_fits(rows: usize, cols: usize) -> bool
    ensures { result ≡ grid_fits rows cols }
{
    let bits = column_bits(cols);

    // Rows is tested before it is multiplied.
    rows >= 1 && bits >= 1 && rows <= 128 && rows * bits <= 128
}

// 1 to 4.
pub fn settings(rows: usize, cols: usize, params: MicroParams, clock: SubWindowClock) -> Verdict
    ensures { result ≡ refuse_settings rows cols params clock Accepted }
{
    let cells = cell_judging::judge::settings(params);
    if !cells.accepted() {
        return cells;
    }
    let times = clock_steps::worker::judged(clock);
    if !times.accepted() {
        return times;
    }
    if !grid_fits(rows, cols) {
        return Verdict::Refused(4);
    }
    Verdict::Accepted
}

// 1 to 5: a sketch's own numbers, before a byte of a grid or a store is looked at.
pub fn numbers(sketch: MicroCm) -> Verdict
    ensures { result ≡ numbers_verdict sketch }
{
    let judged = settings(sketch.rows, sketch.cols, sketch.params, sketch.clock);
    if !judged.accepted() {
        return judged;
    }
    if sketch.rounding.state == 0 {
        return Verdict::Refused(5);
    }
    Verdict::Accepted
}

// 1 to 6.
pub fn sketch(sketch: MicroCm, grid: &[u8]) -> Verdict
    ensures { result ≡ sketch_verdict sketch grid.now }
{
    let judged = numbers(sketch);
    if !judged.accepted() {
        return judged;
    }
    if grid.len() != sketch.rows * sketch.cols * cell_layout::fields::depth(sketch.params.t) {
        return Verdict::Refused(6);
    }
    Verdict::Accepted
}

// Whether each of these columns is below cols.
pub fn all_below(key: &[u32], cols: usize) -> bool
    ensures { result ≡ all_below cols key.now }
{
    key.iter().all(|col| (*col as usize) < cols)
}

fn key_fits(sketch: MicroCm, key: &[u32]) -> bool
    ensures { result ≡ key_fits sketch key.now }
{
    key.len() == sketch.rows && all_below(key, sketch.cols)
}

// 1 to 7.
pub fn keyed(sketch: MicroCm, key: &[u32], grid: &[u8]) -> Verdict
    ensures { result ≡ refuse_sketch sketch grid.now (refuse_key sketch key.now Accepted) }
{
    let verdict = crate::judge::sketch(sketch, grid);
    if !verdict.accepted() {
        return verdict;
    }
    if !key_fits(sketch, key) {
        return Verdict::Refused(7);
    }
    Verdict::Accepted
}

fn cell_sound(sketch: MicroCm, grid: &[u8], index: usize) -> bool
    requires { Ready sketch (length grid.now) × (index < cells_of sketch) }
    ensures { result ≡ sound_of sketch.params.t sketch.params.c (cell_of sketch grid.now index) }
{
    let MicroParams { t, c } = sketch.params;
    let start = grid::start_of(sketch, grid.len(), index);
    let end = start + cell_layout::fields::depth(t);
    cell_judging::judge::sound(&grid[start..end], t, c)
}

// 14 over the key's cells.
pub fn key_cells(sketch: MicroCm, key: &[u32], grid: &[u8]) -> Verdict
    requires { Ready sketch (length grid.now) × (key_fits sketch key.now ≡ true) }
    ensures { result ≡ first_unsound Unsound Accepted sketch grid.now (key_cells sketch 0 key.now) }
{
    for row in 0..key.len() {
        let index = grid::key_cell(sketch, key, row);
        if !cell_sound(sketch, grid, index) {
            return Verdict::Unsound(index);
        }
    }
    Verdict::Accepted
}

// 14 over every cell, in grid order.
pub fn all_cells(sketch: MicroCm, grid: &[u8]) -> Verdict
    requires { Ready sketch (length grid.now) }
    ensures { result ≡ first_unsound Unsound Accepted sketch grid.now (all_cells sketch) }
{
    for index in 0..sketch.rows * sketch.cols {
        if !cell_sound(sketch, grid, index) {
            return Verdict::Unsound(index);
        }
    }
    Verdict::Accepted
}
