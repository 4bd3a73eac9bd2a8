// The exports of edge::cells: the calls on one cell.
ghost use Rattle.std.specs.Prelude.{◌≡◌};
ghost use Rattle.refusal.specs.Refusals.{number_of};
ghost use Rattle.cell.specs.Refusals.{cell_verdict};
ghost use Rattle.edge_values.specs.Edge.{params_of, valued, pixel, celled};
ghost use Rattle.edge.specs.Calls.{depth_told, base_told, zoom_told, shutter_told, pixel_told, inserted, entered, cells_merged};

#[unsafe(no_mangle)]
pub extern "C" fn microscope_depth(t: u64, c: u64, depth: &mut u64) -> u64
    ensures { valued result depth.new ≡ depth_told t c }
{
    edge::cells::microscope_depth(t, c, depth)
}

#[unsafe(no_mangle)]
pub extern "C" fn microscope_base_max_zoom(c: u64, zoom: &mut u64) -> u64
    ensures { valued result zoom.new ≡ base_told c }
{
    edge::cells::microscope_base_max_zoom(c, zoom)
}

#[unsafe(no_mangle)]
pub extern "C" fn microscope_cell_check(cell: &[u8], t: u64, c: u64) -> u64
    ensures { result ≡ number_of (cell_verdict (params_of t c) cell.now) }
{
    edge::cells::microscope_cell_check(cell, t, c)
}

#[unsafe(no_mangle)]
pub extern "C" fn microscope_cell_zoom(cell: &[u8], t: u64, c: u64, zoom: &mut u64) -> u64
    ensures { valued result zoom.new ≡ zoom_told t c cell.now }
{
    edge::cells::microscope_cell_zoom(cell, t, c, zoom)
}

#[unsafe(no_mangle)]
pub extern "C" fn microscope_cell_shutter(cell: &[u8], t: u64, c: u64, shutter: &mut u64) -> u64
    ensures { valued result shutter.new ≡ shutter_told t c cell.now }
{
    edge::cells::microscope_cell_shutter(cell, t, c, shutter)
}

#[unsafe(no_mangle)]
pub extern "C" fn microscope_cell_scaled_pixel(
    cell: &[u8],
    t: u64,
    c: u64,
    n: u64,
    items: &mut f64,
) -> u64
    ensures { pixel result items.new ≡ pixel_told t c n cell.now }
{
    edge::cells::microscope_cell_scaled_pixel(cell, t, c, n, items)
}

#[unsafe(no_mangle)]
pub extern "C" fn microscope_cell_insert(
    cell: &mut [u8],
    t: u64,
    c: u64,
    n: u64,
    state: &mut u64,
    change: &mut [u64; 3],
) -> u64
    ensures { celled result cell.new state.new change.new
        ≡ inserted t c n cell.old state.old }
{
    edge::cells::microscope_cell_insert(cell, t, c, n, state, change)
}

#[unsafe(no_mangle)]
pub extern "C" fn microscope_cell_enter_sub_window(
    cell: &mut [u8],
    t: u64,
    c: u64,
    new_n: u64,
    crossed: u64,
    state: &mut u64,
    change: &mut [u64; 3],
) -> u64
    ensures { celled result cell.new state.new change.new
        ≡ entered t c new_n crossed cell.old state.old }
{
    edge::cells::microscope_cell_enter_sub_window(cell, t, c, new_n, crossed, state, change)
}

#[unsafe(no_mangle)]
pub extern "C" fn microscope_cell_merge(
    dst: &mut [u8],
    src: &[u8],
    t: u64,
    c: u64,
    n: u64,
    state: &mut u64,
    change: &mut [u64; 3],
) -> u64
    ensures { celled result dst.new state.new change.new
        ≡ cells_merged t c n dst.old src.now state.old }
{
    edge::cells::microscope_cell_merge(dst, src, t, c, n, state, change)
}
