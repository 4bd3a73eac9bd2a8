// What is judged before a key is read: 1 to 7, the fraction, then the key's cells and no others. A cell elsewhere that is
// unsound does no harm to this key's figures.
ghost use Rattle.std.specs.Prelude.{◌≡◌, not, ◌&&◌};
ghost use Rattle.laws.specs.Unit.{in_unit};
ghost use Rattle.clock.specs.Workers.{GoodLength};
ghost use Rattle.sketch.specs.Figures.{has_oldest};
ghost use Rattle.sketch.specs.Refusals.{read_verdict, read_with_verdict};

use refusal::Verdict;
use sketch::MicroCm;

// Whether x is a number from 0 to 1. Both tests fail for a NaN. Tried as `(0.0..=1.0).contains(&x)`, and not proved: it orders
// floats by `partial_cmp`, and no law of the library ties that to `<=`.
fn in_unit(x: f64) -> bool
    ensures { result ≡ in_unit x }
{
    x >= 0.0 && x <= 1.0
}

// Whether a reading would use this fraction, and may not: before there is an oldest sub-window any value will do.
fn misused(sketch: MicroCm, fraction: f64) -> bool
    requires { GoodLength sketch.clock }
    ensures { result ≡ (has_oldest sketch && not (in_unit fraction)) }
{
    clock_steps::worker::sub_window(sketch.clock) >= sketch.params.t as u64 && !in_unit(fraction)
}

// A reading with the clock's fraction, or with none.
pub fn read(sketch: MicroCm, key: &[u32], grid: &[u8]) -> Verdict
    ensures { result ≡ read_verdict sketch key.now grid.now }
{
    let verdict = sketch_judging::judge::keyed(sketch, key, grid);
    if !verdict.accepted() {
        return verdict;
    }
    sketch_judging::judge::key_cells(sketch, key, grid)
}

// A reading with a given fraction.
pub fn read_with(sketch: MicroCm, key: &[u32], fraction: f64, grid: &[u8]) -> Verdict
    ensures { result ≡ read_with_verdict sketch key.now fraction grid.now }
{
    let verdict = sketch_judging::judge::keyed(sketch, key, grid);
    if !verdict.accepted() {
        return verdict;
    }
    if misused(sketch, fraction) {
        return Verdict::Refused(13);
    }
    sketch_judging::judge::key_cells(sketch, key, grid)
}
