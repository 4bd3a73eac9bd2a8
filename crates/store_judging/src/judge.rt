// What a save and a load test before anything is written, each in its own order.
ghost use Rattle.std.specs.Prelude.{◌≡◌, ◌+◌, ◌-◌, ◌*◌, ◌/◌, ◌≤◌, length};
ghost use Rattle.laws.specs.Parts.{part};
ghost use Rattle.refusal.specs.declared.Verdict.TheVariants.{Accepted};
ghost use Rattle.cell.specs.Cell.{depth_of, sound_of};
ghost use Rattle.sketch.specs.Sketch.{all_cells};
ghost use Rattle.sketch.specs.Refusals.{refuse_unsound, numbers_verdict};
ghost use Rattle.store_blocks.specs.Blocks.{carried};
ghost use Rattle.store.specs.Refusals.{refuse_blocks, grid_in, grid_verdict};
ghost use Rattle.store.specs.Workers.{Sized, Stored};

use refusal::Verdict;
use sketch::MicroCm;
use store_blocks::chain;
use store_bytes::bytes;

pub fn grid_bytes(sketch: MicroCm) -> usize
    requires { numbers_verdict sketch ≡ Accepted }
    ensures { Sized sketch result }
{
    let params = sketch.params;
    sketch.rows * sketch.cols * cell_layout::fields::depth(params.t)
}

// The length of the store of a grid of so many bytes.
pub fn store_bytes(size: usize) -> usize
    requires { size ≤ 34426847232 }
    ensures { result ≡ 512 * (1 + (size + 503) / 504) }
{
    512 * (1 + (size + 503) / 504)
}

// Whether the cell that the store carries from `at` on is sound. Its zoom and its shutter stand together behind its pixels,
// and no other byte of it is read.
fn cell_sound(sketch: MicroCm, store: &[u8], at: usize) -> bool
    requires { (numbers_verdict sketch ≡ Accepted) × (at + depth_of sketch.params.t ≤ 504 * (length store.now / 512 - 1)) }
    ensures { result ≡ sound_of sketch.params.t sketch.params.c (part at (depth_of sketch.params.t) (carried store.now)) }
{
    let params = sketch.params;
    let mut held = [0u8; 5];
    chain::copy_out(&mut held, store, at + cell_layout::fields::pixels(params.t));
    let shutter = bytes::number(&held[1..5]);
    cell_judging::judge::fields_sound(held[0], shutter, params.c)
}

// 14 over the stored cells.
pub fn cells(sketch: MicroCm, store: &[u8]) -> Verdict
    requires { Stored sketch (length store.now) }
    ensures { result ≡ refuse_unsound sketch (grid_in sketch store.now) (all_cells sketch) Accepted }
{
    let params = sketch.params;
    let depth = cell_layout::fields::depth(params.t);
    let count = sketch.rows * sketch.cols;
    for index in 0..count {
        if !cell_sound(sketch, store, index * depth) {
            return Verdict::Unsound(index);
        }
    }
    Verdict::Accepted
}

// 16 for a store that was cut, 17 over every block.
pub fn whole(store: &[u8]) -> Verdict
    ensures { result ≡ refuse_blocks store.now Accepted }
{
    if store.is_empty() || store.len() % 512 != 0 {
        return Verdict::Refused(16);
    }
    if chain::all_pass(store) {
        return Verdict::Accepted;
    }
    Verdict::Refused(17)
}

// 16, 18, 6, 14: what is left to judge once the header has given a sketch.
pub fn behind_header(sketch: MicroCm, grid: &[u8], store: &[u8]) -> Verdict
    requires { numbers_verdict sketch ≡ Accepted }
    ensures { result ≡ grid_verdict sketch grid.now store.now }
{
    let size = grid_bytes(sketch);
    if store.len() != store_bytes(size) {
        return Verdict::Refused(16);
    }
    if !chain::fill_clear(store, size) {
        return Verdict::Refused(18);
    }
    if grid.len() != size {
        return Verdict::Refused(6);
    }
    cells(sketch, store)
}
