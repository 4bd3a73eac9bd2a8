// The calls on one cell, for teaching and test.
ghost use Rattle.std.specs.Prelude.{◌≡◌};
ghost use Rattle.refusal.specs.Refusals.{number_of};
ghost use Rattle.cell.specs.Refusals.{cell_verdict};
ghost use Rattle.edge_values.specs.Edge.{params_of, valued, pixel, celled};
ghost use Rattle.edge.specs.Calls.{depth_told, base_told, zoom_told, shutter_told, pixel_told, inserted, entered, cells_merged};

use rounding::Rounding;

// How many bytes a cell takes.
#[unsafe(no_mangle)]
pub extern "C" fn microscope_depth(t: u64, c: u64, depth: &mut u64) -> u64
    ensures { valued result depth.new ≡ depth_told t c }
{
    let answer = cell_reading::layout(edge_values::params(t, c));
    let layout = answer.layout;
    *depth = layout.depth as u64;
    let verdict = answer.verdict;
    edge_values::number(verdict)
}

// The largest zoom of a base.
#[unsafe(no_mangle)]
pub extern "C" fn microscope_base_max_zoom(c: u64, zoom: &mut u64) -> u64
    ensures { valued result zoom.new ≡ base_told c }
{
    let answer = cell_reading::max_zoom(edge_values::base(c));
    *zoom = answer.zoom as u64;
    let verdict = answer.verdict;
    edge_values::number(verdict)
}

// Whether a cell is sound.
#[unsafe(no_mangle)]
pub extern "C" fn microscope_cell_check(cell: &[u8], t: u64, c: u64) -> u64
    ensures { result ≡ number_of (cell_verdict (params_of t c) cell.now) }
{
    let verdict = cell_reading::judge(cell, edge_values::params(t, c));
    edge_values::number(verdict)
}

#[unsafe(no_mangle)]
pub extern "C" fn microscope_cell_zoom(cell: &[u8], t: u64, c: u64, zoom: &mut u64) -> u64
    ensures { valued result zoom.new ≡ zoom_told t c cell.now }
{
    let answer = cell_reading::zoom(cell, edge_values::params(t, c));
    *zoom = answer.zoom as u64;
    let verdict = answer.verdict;
    edge_values::number(verdict)
}

#[unsafe(no_mangle)]
pub extern "C" fn microscope_cell_shutter(cell: &[u8], t: u64, c: u64, shutter: &mut u64) -> u64
    ensures { valued result shutter.new ≡ shutter_told t c cell.now }
{
    let answer = cell_reading::shutter(cell, edge_values::params(t, c));
    *shutter = answer.shutter as u64;
    let verdict = answer.verdict;
    edge_values::number(verdict)
}

// The items that a cell counts for sub-window n: the pixel times c^Z.
#[unsafe(no_mangle)]
pub extern "C" fn microscope_cell_scaled_pixel(
    cell: &[u8],
    t: u64,
    c: u64,
    n: u64,
    items: &mut f64,
) -> u64
    ensures { pixel result items.new ≡ pixel_told t c n cell.now }
{
    let answer = cell_reading::scaled_pixel(cell, edge_values::params(t, c), n);
    *items = answer.items;
    let verdict = answer.verdict;
    edge_values::number(verdict)
}

// Records an item of sub-window n.
#[unsafe(no_mangle)]
pub extern "C" fn microscope_cell_insert(
    cell: &mut [u8],
    t: u64,
    c: u64,
    n: u64,
    state: &mut u64,
    change: &mut [u64; 3],
) -> u64
    ensures { celled result cell.new state.new change.new
        ≡ inserted t c n cell.old state.old }
{
    let rounding = Rounding { state: *state };
    let answer = cell_insertion::insert(cell, edge_values::params(t, c), n, rounding);
    edge_answers::drawn(state, change, answer)
}

// Moves a cell into sub-window new_n, `crossed` sub-windows on.
#[unsafe(no_mangle)]
pub extern "C" fn microscope_cell_enter_sub_window(
    cell: &mut [u8],
    t: u64,
    c: u64,
    new_n: u64,
    crossed: u64,
    state: &mut u64,
    change: &mut [u64; 3],
) -> u64
    ensures { celled result cell.new state.new change.new
        ≡ entered t c new_n crossed cell.old state.old }
{
    let rounding = Rounding { state: *state };
    let params = edge_values::params(t, c);
    let answer = cell_crossing::enter_sub_window(cell, params, new_n, crossed, rounding);
    edge_answers::drawn(state, change, answer)
}

// Adds the counts of src to those of dst, as they are at sub-window n. src is only read.
#[unsafe(no_mangle)]
pub extern "C" fn microscope_cell_merge(
    dst: &mut [u8],
    src: &[u8],
    t: u64,
    c: u64,
    n: u64,
    state: &mut u64,
    change: &mut [u64; 3],
) -> u64
    ensures { celled result dst.new state.new change.new
        ≡ cells_merged t c n dst.old src.now state.old }
{
    let rounding = Rounding { state: *state };
    let answer = cell_merging::merge_cells(dst, src, edge_values::params(t, c), n, rounding);
    edge_answers::drawn(state, change, answer)
}
