// The exports of edge::watched: the calls on watched codes.
ghost use Rattle.std.specs.Prelude.{◌≡◌};
ghost use Rattle.edge_values.specs.Edge.{codes_set, codes_asked};
ghost use Rattle.edge.specs.Calls.{codes_set_by, codes_asked_by};

#[unsafe(no_mangle)]
pub extern "C" fn microscope_set_codes(
    sketch: &[u64; 9],
    watch: &mut [u64; 3],
    columns: &[u32],
    limits: &[u64],
    kept_columns: &mut [u32; 8192],
    kept_limits: &mut [u64; 64],
) -> u64
    ensures { codes_set result watch.new kept_columns.new kept_limits.new
        ≡ codes_set_by sketch.now watch.old columns.now limits.now
        kept_columns.old kept_limits.old }
{
    edge::watched::microscope_set_codes(sketch, watch, columns, limits, kept_columns, kept_limits)
}

#[unsafe(no_mangle)]
pub extern "C" fn microscope_ask(
    sketch: &[u64; 9],
    watch: &mut [u64; 3],
    kept_columns: &[u32; 8192],
    kept_limits: &[u64; 64],
    grid: &[u8],
    list: &mut [u8],
    asked: &mut [u64; 2],
) -> u64
    ensures { codes_asked result watch.new list.new asked.new
        ≡ codes_asked_by sketch.now watch.old kept_columns.now kept_limits.now
        grid.now list.old }
{
    edge::watched::microscope_ask(sketch, watch, kept_columns, kept_limits, grid, list, asked)
}
