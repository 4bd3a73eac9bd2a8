// Document 01, "Figures": per sub-window the minimum across rows first, the sum over sub-windows after, so that a row
// which another key inflates in one sub-window does not count there. Callers have judged the key's cells.
ghost use Rattle.std.specs.Prelude.{◌≡◌, ◌+◌, ◌-◌, ◌*◌, ◌^◌, ◌≤◌, ◌<◌, length};
ghost use Rattle.laws.specs.Figure.{figure};
ghost use Rattle.clock.specs.Clock.{n_of};
ghost use Rattle.sketch.specs.Figures.{sum_back, under_of};
ghost use Rattle.sketch.specs.Workers.{Readable};
ghost use Rattle.sketch_reading_rows.specs.Workers.{Units};
ghost use Rattle.sketch_reading_figures.specs.Workers.{exactly, young_estimate, aged_estimate, estimate_of};

use sketch::{MicroCm, Reading};
use sketch_reading_rows::worker;

// A whole number below 2^53 and the same number as f64.
#[derive(Clone, Copy)]
pub struct Exact {
    pub whole: u64,
    pub value: f64,
}

// A reading beside the same figures as whole numbers.
#[derive(Clone, Copy)]
pub struct Estimated {
    pub reading: Reading,
    pub over: u64,
    pub under: u64,
}

fn exact_of(whole: u64) -> Exact
    requires { whole ≤ 2 ^ 53 }
    ensures { result ≡ exactly whole }
{
    Exact {
        whole,
        value: whole as f64,
    }
}

// One more term, as a whole number and as f64.
fn plus(sum: Exact, items: u64) -> Exact
    requires { (sum.value ≡ figure sum.whole) × (sum.whole + items ≤ 2 ^ 53) }
    ensures { result ≡ exactly (sum.whole + items) }
{
    Exact {
        whole: sum.whole + items,
        value: sum.value + items as f64,
    }
}

// The sum over sub-windows n, n - 1 back to n - most, where not negative.
fn sum_back(sketch: MicroCm, grid: &[u8], key: &[u32], units: &[u64], n: u64, most: u64) -> Exact
    requires readable { Readable sketch key.now grid.now × (length units.now ≡ 128) }
    requires units { Units sketch grid.now key.now sketch.rows units.now }
    requires n_value { (n ≡ n_of sketch.clock) × (most < 4096) }
    ensures { (result ≡ exactly (sum_back sketch grid.now key.now most)) × (result.whole ≤ 4096 * (256 * (2 ^ 32 - 1))) }
{
    let mut sum = exact_of(worker::least_in(sketch, grid, key, units, n, n));
    for back in 1..=n.min(most) {
        sum = plus(sum, worker::least_in(sketch, grid, key, units, n, n - back));
    }
    sum
}

// No sub-window has left the window yet: the three figures are one.
fn below_window(under: Exact, fraction: f64) -> Estimated
    ensures { result ≡ young_estimate under fraction }
{
    let value = under.value;
    Estimated {
        reading: Reading {
            over: value,
            under: value,
            linear: value,
            fraction,
        },
        over: under.whole,
        under: under.whole,
    }
}

// The oldest sub-window counts whole, not at all, or by the fraction of it that is still inside.
fn with_oldest(under: Exact, oldest: u64, fraction: f64) -> Estimated
    requires { (under.value ≡ figure under.whole) × (under.whole + oldest ≤ 2 ^ 53) }
    ensures { result ≡ aged_estimate under.whole oldest fraction }
{
    let over = plus(under, oldest);
    let items = oldest as f64;
    Estimated {
        reading: Reading {
            over: over.value,
            under: under.value,
            linear: under.value + fraction * items,
            fraction,
        },
        over: over.whole,
        under: under.whole,
    }
}

// Under; the units are known.
fn under_from(sketch: MicroCm, grid: &[u8], key: &[u32], units: &[u64]) -> Exact
    requires readable { Readable sketch key.now grid.now × (length units.now ≡ 128) }
    requires units { Units sketch grid.now key.now sketch.rows units.now }
    ensures { (result ≡ exactly (under_of sketch grid.now key.now)) × (result.whole ≤ 4096 * (256 * (2 ^ 32 - 1))) }
{
    let params = sketch.params;
    let clock = sketch.clock;
    let n = clock_steps::worker::sub_window(clock);
    sum_back(sketch, grid, key, units, n, params.t as u64 - 1)
}

// All figures; the units are known.
fn estimate_from(
    sketch: MicroCm,
    grid: &[u8],
    key: &[u32],
    units: &[u64],
    fraction: f64,
) -> Estimated
    requires readable { Readable sketch key.now grid.now × (length units.now ≡ 128) }
    requires units { Units sketch grid.now key.now sketch.rows units.now }
    ensures { result ≡ estimate_of sketch grid.now key.now fraction }
{
    let params = sketch.params;
    let clock = sketch.clock;
    let t = params.t as u64;
    let n = clock_steps::worker::sub_window(clock);
    let under = under_from(sketch, grid, key, units);
    if n < t {
        return below_window(under, fraction);
    }
    with_oldest(
        under,
        worker::least_in(sketch, grid, key, units, n, n - t),
        fraction,
    )
}

// All figures; the units are found into the buffer that is lent.
fn estimate_with(
    sketch: MicroCm,
    grid: &[u8],
    key: &[u32],
    units: &mut [u64],
    fraction: f64,
) -> Estimated
    requires { Readable sketch key.now grid.now × (length units.old ≡ 128) }
    ensures { result ≡ estimate_of sketch grid.now key.now fraction }
{
    worker::fill_units(sketch, grid, key, units);
    estimate_from(sketch, grid, key, &units[..], fraction)
}

pub fn estimate(sketch: MicroCm, grid: &[u8], key: &[u32], fraction: f64) -> Estimated
    requires { Readable sketch key.now grid.now }
    ensures { result ≡ estimate_of sketch grid.now key.now fraction }
{
    let mut units = [0u64; 128];
    estimate_with(sketch, grid, key, &mut units, fraction)
}

// Under alone; the units are found into the buffer that is lent.
fn under_with(sketch: MicroCm, grid: &[u8], key: &[u32], units: &mut [u64]) -> u64
    requires { Readable sketch key.now grid.now × (length units.old ≡ 128) }
    ensures { result ≡ under_of sketch grid.now key.now }
{
    worker::fill_units(sketch, grid, key, units);
    let sum = under_from(sketch, grid, key, &units[..]);
    sum.whole
}

pub fn under(sketch: MicroCm, grid: &[u8], key: &[u32]) -> u64
    requires { Readable sketch key.now grid.now }
    ensures { result ≡ under_of sketch grid.now key.now }
{
    let mut units = [0u64; 128];
    under_with(sketch, grid, key, &mut units)
}
