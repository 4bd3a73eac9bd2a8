// The present highest zoom of any cell.
ghost use Rattle.std.specs.Prelude.{◌≡◌, ◌<◌, length};
ghost use Rattle.cell.specs.Cell.{zoom_of};
ghost use Rattle.sketch.specs.Sketch.{cells_of, cell_of};
ghost use Rattle.sketch.specs.Audit.{highest_zoom};
ghost use Rattle.sketch.specs.Refusals.{highest_verdict};
ghost use Rattle.sketch.specs.Workers.{Ready};

use refusal::Verdict;
use sketch::MicroCm;
use sketch_judging::{grid, judge};

// 1 to 6, then 14 over every cell.
pub fn judge(sketch: MicroCm, grid: &[u8]) -> Verdict
    ensures { result ≡ highest_verdict sketch grid.now }
{
    let verdict = judge::sketch(sketch, grid);
    if !verdict.accepted() {
        return verdict;
    }
    judge::all_cells(sketch, grid)
}

fn zoom_at(sketch: MicroCm, grid: &[u8], index: usize) -> u8
    requires { Ready sketch (length grid.now) × (index < cells_of sketch) }
    ensures { result ≡ zoom_of sketch.params.t (cell_of sketch grid.now index) }
{
    let t = sketch.params.t;
    let start = grid::start_of(sketch, grid.len(), index);
    let end = start + cell_layout::fields::depth(t);
    cell_layout::fields::zoom(&grid[start..end], t)
}

pub fn zoom(sketch: MicroCm, grid: &[u8]) -> u8
    requires { Ready sketch (length grid.now) }
    ensures { result ≡ highest_zoom sketch grid.now }
{
    let mut highest = zoom_at(sketch, grid, 0);
    for index in 1..sketch.rows * sketch.cols {
        highest = highest.max(zoom_at(sketch, grid, index));
    }
    highest
}
