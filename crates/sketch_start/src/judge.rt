// The verdict of a fresh start.
ghost use Rattle.std.specs.Prelude.{◌≡◌, not, ◌*◌, eqb};
ghost use Rattle.refusal.specs.declared.Verdict.TheVariants.{Accepted};
ghost use Rattle.refusal.specs.Refusals.{refuse};
ghost use Rattle.cell.specs.Cell.{depth_of};
ghost use Rattle.sketch.specs.Refusals.{refuse_settings};

use cell::MicroParams;
use clock::SubWindowClock;
use refusal::Verdict;

// 1 to 4, then 6 for a grid of so many bytes. No seed gives the random state 0, so 5 can't arise.
pub fn start(
    rows: usize,
    cols: usize,
    params: MicroParams,
    clock: SubWindowClock,
    size: usize,
) -> Verdict
    ensures { result ≡ refuse_settings rows cols params clock (refuse 6 (not (eqb size (rows * cols * depth_of params.t))) Accepted) }
{
    let judged = sketch_judging::judge::settings(rows, cols, params, clock);
    if !judged.accepted() {
        return judged;
    }
    if size == rows * cols * cell_layout::fields::depth(params.t) {
        return Verdict::Accepted;
    }
    Verdict::Refused(6)
}
