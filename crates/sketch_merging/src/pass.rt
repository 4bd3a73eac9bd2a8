// Document 01, "Merge": a pass over the cells of two grids. Callers have judged both sketches and all their cells.
ghost use Rattle.std.specs.Prelude.{◌≡◌, ◌*◌, ◌≤◌, length};
ghost use Rattle.laws.specs.Passes.{each_of};
ghost use Rattle.cell.specs.Cell.{depth_of};
ghost use Rattle.sketch.specs.Sketch.{cells_of, all_cells};
ghost use Rattle.sketch.specs.Merge.{merge_each};
ghost use Rattle.sketch.specs.Workers.{Ready, Judged, SoundCells, pass_of};
ghost use Rattle.sketch_merging.specs.Workers.{merge_piece};

use sketch::{MicroCm, Passed};

// So many cells, one after another.
fn merge_cells(
    grid: &mut [u8],
    other: &[u8],
    work: &mut [u32],
    t: usize,
    c: u32,
    count: usize,
    n: u64,
    state: u64,
) -> Passed
    requires sound_cells { SoundCells t c count grid.old × SoundCells t c count other.now }
    requires work_len { length work.old ≡ 4098 }
    ensures { pass_of grid.new result ≡ each_of (merge_piece t c n other.now) (depth_of t) 0 count grid.old state }
{
    let depth = cell_layout::fields::depth(t);
    let slot = cell_layout::fields::slot(t, n);
    let mut after = state;
    let mut draws: u64 = 0;
    let mut lost: u64 = 0;
    let mut start: usize = 0;
    // Not `chunks_exact_mut`: of what was written through a chunk a proof knows nothing once the loop is over.
    for _ in 0..count {
        let end = start + depth;
        let drawn = cell_merging::merge::merge_within(
            &mut grid[start..end],
            &other[start..end],
            work,
            t,
            c,
            n,
            slot,
            after,
        );
        after = drawn.state;
        draws += drawn.draws as u64;
        lost += drawn.lost as u64;
        start = end;
    }
    Passed {
        state: after,
        draws,
        lost,
    }
}

// Every cell, in grid order. The array of sums is made once for all of them.
pub fn merge_each(sketch: MicroCm, grid: &mut [u8], other: &[u8], n: u64, state: u64) -> Passed
    requires ready { Ready sketch (length grid.old) × Judged sketch grid.old (all_cells sketch) }
    requires sound_cells { SoundCells sketch.params.t sketch.params.c (cells_of sketch) other.now }
    ensures { pass_of grid.new result ≡ merge_each sketch n other.now grid.old state }
{
    let params = sketch.params;
    let mut work = [0u32; 4098];
    merge_cells(
        grid,
        other,
        &mut work,
        params.t,
        params.c,
        sketch.rows * sketch.cols,
        n,
        state,
    )
}
