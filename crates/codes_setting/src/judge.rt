// What is judged before a list is kept: 1 to 5, the columns of all codes given, then how many they are. No cell is looked at.
ghost use Rattle.std.specs.Prelude.{◌≡◌, ◌*◌, ◌<◌, eqb};
ghost use Rattle.codes.specs.Refusals.{codes_fit, set_verdict};

use refusal::Verdict;
use sketch::MicroCm;

// Whether these are as many columns as so many codes have. The product might not fit, so the columns are divided.
fn even(size: usize, count: usize, rows: usize) -> bool
    requires { 0 < rows }
    ensures { result ≡ eqb size (count * rows) }
{
    size % rows == 0 && size / rows == count
}

// 7.
fn codes_fit(sketch: MicroCm, columns: &[u32], count: usize) -> bool
    requires { 0 < sketch.rows }
    ensures { result ≡ codes_fit sketch columns.now count }
{
    even(columns.len(), count, sketch.rows)
        && sketch_judging::judge::all_below(columns, sketch.cols)
}

pub fn setting(sketch: MicroCm, columns: &[u32], count: usize) -> Verdict
    ensures { result ≡ set_verdict sketch columns.now count }
{
    let verdict = sketch_judging::judge::numbers(sketch);
    if !verdict.accepted() {
        return verdict;
    }
    if !codes_fit(sketch, columns, count) {
        return Verdict::Refused(7);
    }
    if count > 64 {
        return Verdict::Refused(19);
    }
    Verdict::Accepted
}
