// Document 02, T-08: the mean, over the sub-windows begun. The caller has judged the key's cells.
ghost use Rattle.std.specs.Prelude.{◌≡◌, ◌/◌, ◌<◌};
ghost use Rattle.sketch.specs.Figures.{begun_of, mean_of};
ghost use Rattle.sketch.specs.Workers.{Readable};

use sketch::MicroCm;

// n + 1 sub-windows have begun; a window has t. The sum saturates, as n + 1 may have no place in 64 bits.
fn begun(sketch: MicroCm) -> u64
    ensures { result ≡ begun_of sketch }
{
    let t = sketch.params.t as u64;
    let n = clock_steps::worker::sub_window(sketch.clock);
    n.saturating_add(1).min(t)
}

// By itself, so that an edit can round otherwise and break nothing but this contract.
fn rounded_down(items: u64, parts: u64) -> u64
    requires { 0 < parts }
    ensures { result ≡ items / parts }
{
    items / parts
}

// Under for each of them, rounded down.
pub fn mean(sketch: MicroCm, grid: &[u8], key: &[u32]) -> u64
    requires { Readable sketch key.now grid.now }
    ensures { result ≡ mean_of sketch grid.now key.now }
{
    let under = sketch_reading_figures::worker::under(sketch, grid, key);
    rounded_down(under, begun(sketch))
}
