// The calls on a sketch: nine words, a grid and a key that the caller keeps.
ghost use Rattle.std.specs.Prelude.{◌≡◌};
ghost use Rattle.refusal.specs.Refusals.{number_of};
ghost use Rattle.sketch.specs.Refusals.{bucket_verdict};
ghost use Rattle.edge_values.specs.Edge.{sketch_of, started, changed, read, told};
ghost use Rattle.edge.specs.Calls.{started_with, updated, advanced, merged};
ghost use Rattle.edge.specs.Calls.{estimated, estimated_with, mean_told, highest_told, audited};

use service::Service;

// A fresh sketch, and no codes: every byte of the grid is written 0. Any seed will do.
#[unsafe(no_mangle)]
pub extern "C" fn microscope_new(
    sketch: &mut [u64; 9],
    watch: &mut [u64; 3],
    rows: u64,
    cols: u64,
    t: u64,
    c: u64,
    kind: u64,
    length: u64,
    epoch: u64,
    seed: u64,
    grid: &mut [u8],
) -> u64
    ensures { started result sketch.new watch.new grid.new
        ≡ started_with sketch.old watch.old rows cols t c kind length epoch seed grid.old }
{
    let params = edge_values::params(t, c);
    let clock = edge_values::clock(kind, length, epoch, epoch);
    let answer = Service::with_dimensions(rows as usize, cols as usize, params, clock, seed, grid);
    edge_answers::started(sketch, watch, answer)
}

// One item on a clock that counts items.
#[unsafe(no_mangle)]
pub extern "C" fn microscope_update(
    sketch: &mut [u64; 9],
    key: &[u32],
    grid: &mut [u8],
    change: &mut [u64; 3],
) -> u64
    ensures { changed result sketch.new grid.new change.new
        ≡ updated sketch.old key.now grid.old }
{
    let core = edge_values::sketch(sketch);
    let answer = sketch_counting::update(core, &key[..], grid);
    edge_answers::changed(sketch, change, answer)
}

// Time passes without an item.
#[unsafe(no_mangle)]
pub extern "C" fn microscope_advance_to(
    sketch: &mut [u64; 9],
    timestamp: u64,
    grid: &mut [u8],
    change: &mut [u64; 3],
) -> u64
    ensures { changed result sketch.new grid.new change.new
        ≡ advanced sketch.old timestamp grid.old }
{
    let core = edge_values::sketch(sketch);
    let answer = sketch_counting::advance_to(core, timestamp, grid);
    edge_answers::changed(sketch, change, answer)
}

// The counts of another sketch added to this one's. The other grid is only read.
#[unsafe(no_mangle)]
pub extern "C" fn microscope_merge(
    sketch: &mut [u64; 9],
    grid: &mut [u8],
    other: &[u64; 9],
    other_grid: &[u8],
    change: &mut [u64; 3],
) -> u64
    ensures { changed result sketch.new grid.new change.new
        ≡ merged sketch.old grid.old other.now other_grid.now }
{
    let core = edge_values::sketch(sketch);
    let others = edge_values::sketch(other);
    let answer = sketch_merging::merge(core, grid, others, other_grid);
    edge_answers::changed(sketch, change, answer)
}

// The figures of a key, with the clock's fraction.
#[unsafe(no_mangle)]
pub extern "C" fn microscope_estimate(
    sketch: &[u64; 9],
    key: &[u32],
    grid: &[u8],
    figures: &mut [f64; 4],
    items: &mut [u64; 3],
) -> u64
    ensures { read result figures.new items.new
        ≡ estimated sketch.now key.now grid.now }
{
    let core = edge_values::sketch(sketch);
    let answer = sketch_reading::estimate(core, key, grid);
    edge_answers::read(figures, items, answer)
}

// The same with a given fraction.
#[unsafe(no_mangle)]
pub extern "C" fn microscope_estimate_with(
    sketch: &[u64; 9],
    key: &[u32],
    fraction: f64,
    grid: &[u8],
    figures: &mut [f64; 4],
    items: &mut [u64; 3],
) -> u64
    ensures { read result figures.new items.new
        ≡ estimated_with sketch.now key.now fraction grid.now }
{
    let core = edge_values::sketch(sketch);
    let answer = sketch_reading::estimate_with(core, key, fraction, grid);
    edge_answers::read(figures, items, answer)
}

// Items a sub-window: Under divided by the sub-windows begun, rounded down.
#[unsafe(no_mangle)]
pub extern "C" fn microscope_mean(
    sketch: &[u64; 9],
    key: &[u32],
    grid: &[u8],
    mean: &mut [u64; 2],
) -> u64
    ensures { told result mean.new ≡ mean_told sketch.now key.now grid.now }
{
    let core = edge_values::sketch(sketch);
    let answer = sketch_reading::mean(core, key, grid);
    let verdict = answer.verdict;
    edge_answers::told(mean, verdict, answer.mean)
}

// Whether there is a cell at this row and column: its bytes are the `depth` bytes from
// (row * cols + column) * depth on.
#[unsafe(no_mangle)]
pub extern "C" fn microscope_bucket_check(sketch: &[u64; 9], row: u64, col: u64, grid: &[u8]) -> u64
    ensures { result ≡ number_of (bucket_verdict (sketch_of sketch.now) row col grid.now) }
{
    let core = edge_values::sketch(sketch);
    let verdict = sketch_queries::bucket_check(core, row as usize, col as usize, grid);
    edge_values::number(verdict)
}

// The highest zoom of any cell.
#[unsafe(no_mangle)]
pub extern "C" fn microscope_max_zoom(sketch: &[u64; 9], grid: &[u8], zoom: &mut [u64; 2]) -> u64
    ensures { told result zoom.new ≡ highest_told sketch.now grid.now }
{
    let core = edge_values::sketch(sketch);
    let answer = sketch_queries::max_zoom(core, grid);
    let verdict = answer.verdict;
    edge_answers::told(zoom, verdict, answer.zoom as u64)
}

// Whether every cell is sound, or the first that is not.
#[unsafe(no_mangle)]
pub extern "C" fn microscope_audit(sketch: &[u64; 9], grid: &[u8], found: &mut [u64; 2]) -> u64
    ensures { told result found.new ≡ audited sketch.now grid.now }
{
    let core = edge_values::sketch(sketch);
    let answer = sketch_queries::audit(core, grid);
    edge_answers::found(found, answer)
}
