// The exports of edge::sketches: the calls on a sketch.
ghost use Rattle.std.specs.Prelude.{◌≡◌};
ghost use Rattle.refusal.specs.Refusals.{number_of};
ghost use Rattle.sketch.specs.Refusals.{bucket_verdict};
ghost use Rattle.edge_values.specs.Edge.{sketch_of, started, changed, read, told};
ghost use Rattle.edge.specs.Calls.{started_with, updated, advanced, merged};
ghost use Rattle.edge.specs.Calls.{estimated, estimated_with, mean_told, highest_told, audited};

#[unsafe(no_mangle)]
pub extern "C" fn microscope_new(
    sketch: &mut [u64; 9],
    watch: &mut [u64; 3],
    rows: u64,
    cols: u64,
    t: u64,
    c: u64,
    kind: u64,
    length: u64,
    epoch: u64,
    seed: u64,
    grid: &mut [u8],
) -> u64
    ensures { started result sketch.new watch.new grid.new
        ≡ started_with sketch.old watch.old rows cols t c kind length epoch seed grid.old }
{
    edge::sketches::microscope_new(
        sketch, watch, rows, cols, t, c, kind, length, epoch, seed, grid,
    )
}

#[unsafe(no_mangle)]
pub extern "C" fn microscope_update(
    sketch: &mut [u64; 9],
    key: &[u32],
    grid: &mut [u8],
    change: &mut [u64; 3],
) -> u64
    ensures { changed result sketch.new grid.new change.new
        ≡ updated sketch.old key.now grid.old }
{
    edge::sketches::microscope_update(sketch, key, grid, change)
}

#[unsafe(no_mangle)]
pub extern "C" fn microscope_advance_to(
    sketch: &mut [u64; 9],
    timestamp: u64,
    grid: &mut [u8],
    change: &mut [u64; 3],
) -> u64
    ensures { changed result sketch.new grid.new change.new
        ≡ advanced sketch.old timestamp grid.old }
{
    edge::sketches::microscope_advance_to(sketch, timestamp, grid, change)
}

#[unsafe(no_mangle)]
pub extern "C" fn microscope_merge(
    sketch: &mut [u64; 9],
    grid: &mut [u8],
    other: &[u64; 9],
    other_grid: &[u8],
    change: &mut [u64; 3],
) -> u64
    ensures { changed result sketch.new grid.new change.new
        ≡ merged sketch.old grid.old other.now other_grid.now }
{
    edge::sketches::microscope_merge(sketch, grid, other, other_grid, change)
}

#[unsafe(no_mangle)]
pub extern "C" fn microscope_estimate(
    sketch: &[u64; 9],
    key: &[u32],
    grid: &[u8],
    figures: &mut [f64; 4],
    items: &mut [u64; 3],
) -> u64
    ensures { read result figures.new items.new
        ≡ estimated sketch.now key.now grid.now }
{
    edge::sketches::microscope_estimate(sketch, key, grid, figures, items)
}

#[unsafe(no_mangle)]
pub extern "C" fn microscope_estimate_with(
    sketch: &[u64; 9],
    key: &[u32],
    fraction: f64,
    grid: &[u8],
    figures: &mut [f64; 4],
    items: &mut [u64; 3],
) -> u64
    ensures { read result figures.new items.new
        ≡ estimated_with sketch.now key.now fraction grid.now }
{
    edge::sketches::microscope_estimate_with(sketch, key, fraction, grid, figures, items)
}

#[unsafe(no_mangle)]
pub extern "C" fn microscope_mean(
    sketch: &[u64; 9],
    key: &[u32],
    grid: &[u8],
    mean: &mut [u64; 2],
) -> u64
    ensures { told result mean.new ≡ mean_told sketch.now key.now grid.now }
{
    edge::sketches::microscope_mean(sketch, key, grid, mean)
}

#[unsafe(no_mangle)]
pub extern "C" fn microscope_bucket_check(sketch: &[u64; 9], row: u64, col: u64, grid: &[u8]) -> u64
    ensures { result ≡ number_of (bucket_verdict (sketch_of sketch.now) row col grid.now) }
{
    edge::sketches::microscope_bucket_check(sketch, row, col, grid)
}

#[unsafe(no_mangle)]
pub extern "C" fn microscope_max_zoom(sketch: &[u64; 9], grid: &[u8], zoom: &mut [u64; 2]) -> u64
    ensures { told result zoom.new ≡ highest_told sketch.now grid.now }
{
    edge::sketches::microscope_max_zoom(sketch, grid, zoom)
}

#[unsafe(no_mangle)]
pub extern "C" fn microscope_audit(sketch: &[u64; 9], grid: &[u8], found: &mut [u64; 2]) -> u64
    ensures { told result found.new ≡ audited sketch.now grid.now }
{
    edge::sketches::microscope_audit(sketch, grid, found)
}
