// What is judged before an asking: 1 to 6, the kept columns, how many codes there are, the room for the list, and then the
// cells of all the codes and no others. Nothing is written here.
ghost use Rattle.std.specs.Prelude.{◌≡◌, ◌≤◌, length};
ghost use Rattle.codes.specs.Refusals.{kept_fit, ask_verdict};
ghost use Rattle.codes_asking.specs.Workers.{bad_in, least_bad, Held, Placed};

use codes::Watch;
use refusal::Verdict;
use sketch::MicroCm;

// 7: any value can be handed in, so the kept columns are judged again. Of a count that no setting leaves, the first 64.
fn kept_fit(sketch: MicroCm, watch: Watch, columns: &[u32]) -> bool
    requires { (sketch.rows ≤ 128) × (length columns.now ≡ 8192) }
    ensures { result ≡ kept_fit sketch watch columns.now }
{
    if watch.count == 0 {
        return true;
    }
    if watch.rows != sketch.rows {
        return false;
    }
    let size = watch.count.min(64) * sketch.rows;
    sketch_judging::judge::all_below(&columns[..size], sketch.cols)
}

// The first unsound cell of a code, in grid order; the number of cells if it has none.
fn code_bad(sketch: MicroCm, columns: &[u32], code: usize, grid: &[u8]) -> usize
    requires { Placed sketch columns.now grid.now code }
    ensures { result ≡ bad_in sketch columns.now grid.now code }
{
    let rows = sketch.rows;
    let start = code * rows;
    let verdict = sketch_judging::judge::key_cells(sketch, &columns[start..start + rows], grid);
    if verdict.accepted() {
        return rows * sketch.cols;
    }
    verdict.index()
}

// The smallest of these over so many codes: a later code's may stand before an earlier one's.
fn least_bad(sketch: MicroCm, columns: &[u32], count: usize, grid: &[u8]) -> usize
    requires { Held sketch columns.now grid.now count }
    ensures { result ≡ least_bad sketch columns.now grid.now count }
{
    let mut least = sketch.rows * sketch.cols;
    for code in 0..count {
        least = least.min(code_bad(sketch, columns, code, grid));
    }
    least
}

pub fn asking(sketch: MicroCm, watch: Watch, columns: &[u32], grid: &[u8], room: usize) -> Verdict
    requires { length columns.now ≡ 8192 }
    ensures { result ≡ ask_verdict sketch watch columns.now grid.now room }
{
    let verdict = sketch_judging::judge::sketch(sketch, grid);
    if !verdict.accepted() {
        return verdict;
    }
    if !kept_fit(sketch, watch, columns) {
        return Verdict::Refused(7);
    }
    let count = watch.count;
    if count > 64 {
        return Verdict::Refused(19);
    }
    let cells = sketch.rows * sketch.cols;
    if room < count {
        return Verdict::Refused(20);
    }
    let bad = least_bad(sketch, columns, count, grid);
    if bad < cells {
        return Verdict::Unsound(bad);
    }
    Verdict::Accepted
}
