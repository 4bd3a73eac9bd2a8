// Document 01, "Figures": what the key's cells say of one sub-window, and the minimum of it across rows. Callers have
// judged the key's cells.
ghost use Rattle.std.specs.Prelude.{◌≡◌, ◌-◌, ◌*◌, ◌^◌, ◌≤◌, ◌<◌, length};
ghost use Rattle.cell.specs.Cell.{depth_of, shutter_of, unit_of};
ghost use Rattle.clock.specs.Clock.{n_of};
ghost use Rattle.sketch.specs.Figures.{items_in, row_items, least_in};
ghost use Rattle.sketch.specs.Workers.{Readable, row_unit};
ghost use Rattle.sketch_reading_rows.specs.Workers.{Units};

use sketch::MicroCm;
use sketch_judging::grid;

// What a cell says of sub-window j, at the present n.
fn items_in(cell: &[u8], t: usize, c: u32, unit: u64, n: u64, j: u64) -> u64
    requires t_bound { (t ≤ 4096) × (length cell.now ≡ depth_of t) }
    requires unit_value { (unit ≡ unit_of t c cell.now) × (unit ≤ 2 ^ 32 - 1) × (shutter_of t cell.now < unit) }
    ensures { (result ≡ items_in t c n cell.now j) × (result ≤ 256 * (2 ^ 32 - 1)) }
{
    let slot = cell_layout::fields::slot(t, j);
    let items = unit * u64::from(cell[slot]);
    if j == n {
        return u64::from(cell_layout::fields::shutter(cell, t)) + items;
    }
    items
}

// The unit of the key's cell in a row.
fn row_unit(sketch: MicroCm, grid: &[u8], key: &[u32], row: usize) -> u64
    requires { Readable sketch key.now grid.now × (row < sketch.rows) }
    ensures { result ≡ row_unit sketch grid.now key.now row }
{
    let params = sketch.params;
    let t = params.t;
    let start = grid::start_of(sketch, grid.len(), grid::key_cell(sketch, key, row));
    let end = start + cell_layout::fields::depth(t);
    cell_judging::power::unit(params.c, cell_layout::fields::zoom(&grid[start..end], t))
}

// What the key's cell in a row says of sub-window j; its unit is known.
fn row_items(
    sketch: MicroCm,
    grid: &[u8],
    key: &[u32],
    row: usize,
    unit: u64,
    n: u64,
    j: u64,
) -> u64
    requires readable { Readable sketch key.now grid.now × (row < sketch.rows) }
    requires unit_value { (unit ≡ row_unit sketch grid.now key.now row) × (n ≡ n_of sketch.clock) }
    ensures { (result ≡ row_items sketch grid.now key.now j row) × (result ≤ 256 * (2 ^ 32 - 1)) }
{
    let params = sketch.params;
    let t = params.t;
    let start = grid::start_of(sketch, grid.len(), grid::key_cell(sketch, key, row));
    let end = start + cell_layout::fields::depth(t);
    items_in(&grid[start..end], t, params.c, unit, n, j)
}

// The units of the key's cells: found once a reading, not once a sub-window.
pub fn fill_units(sketch: MicroCm, grid: &[u8], key: &[u32], units: &mut [u64])
    requires { Readable sketch key.now grid.now × (length units.old ≡ 128) }
    ensures { Units sketch grid.now key.now sketch.rows units.new }
{
    for (row, unit) in units[..sketch.rows].iter_mut().enumerate() {
        *unit = row_unit(sketch, grid, key, row);
    }
}

// The minimum across rows, of sub-window j.
pub fn least_in(sketch: MicroCm, grid: &[u8], key: &[u32], units: &[u64], n: u64, j: u64) -> u64
    requires readable { Readable sketch key.now grid.now × (length units.now ≡ 128) }
    requires units { Units sketch grid.now key.now sketch.rows units.now }
    requires n_value { n ≡ n_of sketch.clock }
    ensures { (result ≡ least_in sketch grid.now key.now j) × (result ≤ 256 * (2 ^ 32 - 1)) }
{
    let mut least = row_items(sketch, grid, key, 0, units[0], n, j);
    for row in 1..sketch.rows {
        least = least.min(row_items(sketch, grid, key, row, units[row], n, j));
    }
    least
}
