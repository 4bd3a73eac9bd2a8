// Where a cell stands in the grid: by row, then column. Callers have judged the settings and the key.
ghost use Rattle.std.specs.Prelude.{◌≡◌, true, ◌+◌, ◌*◌, ◌≤◌, ◌<◌};
ghost use Rattle.cell.specs.Cell.{depth_of};
ghost use Rattle.sketch.specs.Sketch.{cells_of, cell_index};
ghost use Rattle.sketch.specs.Figures.{key_cell};
ghost use Rattle.sketch.specs.Refusals.{key_fits};
ghost use Rattle.sketch.specs.Workers.{Ready};

use sketch::MicroCm;

pub fn cell_index(sketch: MicroCm, row: usize, col: usize) -> usize
    requires { (row < sketch.rows) × (col < sketch.cols) × (sketch.rows ≤ 128) × (sketch.cols ≤ 65536) }
    ensures { (result ≡ cell_index sketch row col) × (result < cells_of sketch) }
{
    row * sketch.cols + col
}

// The key's cell in a row.
pub fn key_cell(sketch: MicroCm, key: &[u32], row: usize) -> usize
    requires { (row < sketch.rows) × (sketch.rows ≤ 128) × (sketch.cols ≤ 65536) × (key_fits sketch key.now ≡ true) }
    ensures { (result ≡ key_cell sketch key.now row) × (result < cells_of sketch) }
{
    cell_index(sketch, row, key[row] as usize)
}

// Where a cell starts; it ends within the grid.
pub fn start_of(sketch: MicroCm, size: usize, index: usize) -> usize
    requires { Ready sketch size × (index < cells_of sketch) }
    ensures { (result ≡ index * depth_of sketch.params.t) × (result + depth_of sketch.params.t ≤ size) }
{
    index * cell_layout::fields::depth(sketch.params.t)
}
