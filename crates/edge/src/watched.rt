// The calls on watched codes. Their columns and limits stand in two arrays of fixed size that the caller keeps; the grid and
// the list are the caller's too.
ghost use Rattle.std.specs.Prelude.{◌≡◌};
ghost use Rattle.edge_values.specs.Edge.{codes_set, codes_asked};
ghost use Rattle.edge.specs.Calls.{codes_set_by, codes_asked_by};

// The codes to watch from now on, in place of those before.
#[unsafe(no_mangle)]
pub extern "C" fn microscope_set_codes(
    sketch: &[u64; 9],
    watch: &mut [u64; 3],
    columns: &[u32],
    limits: &[u64],
    kept_columns: &mut [u32; 8192],
    kept_limits: &mut [u64; 64],
) -> u64
    ensures { codes_set result watch.new kept_columns.new kept_limits.new
        ≡ codes_set_by sketch.now watch.old columns.now limits.now
        kept_columns.old kept_limits.old }
{
    let core = edge_values::sketch(sketch);
    let before = edge_values::watch(watch);
    let answer = codes_setting::set_codes(core, before, columns, limits, kept_columns, kept_limits);
    edge_answers::codes_set(watch, answer)
}

// The codes that have newly reached their limit.
#[unsafe(no_mangle)]
pub extern "C" fn microscope_ask(
    sketch: &[u64; 9],
    watch: &mut [u64; 3],
    kept_columns: &[u32; 8192],
    kept_limits: &[u64; 64],
    grid: &[u8],
    list: &mut [u8],
    asked: &mut [u64; 2],
) -> u64
    ensures { codes_asked result watch.new list.new asked.new
        ≡ codes_asked_by sketch.now watch.old kept_columns.now kept_limits.now
        grid.now list.old }
{
    let core = edge_values::sketch(sketch);
    let before = edge_values::watch(watch);
    let answer = codes_asking::ask(core, before, kept_columns, kept_limits, grid, list);
    edge_answers::codes_asked(watch, asked, answer)
}
