// Document 01, "Crossing": a cell is judged for a crossing, and moved if that accepts it.
ghost use Rattle.std.specs.Prelude.{◌≡◌, ◌&&◌, ltb, ◌<◌, ◌≤◌};
ghost use Rattle.refusal.specs.Refusals.{refuse};
ghost use Rattle.cell.specs.Cell.{pixels_of};
ghost use Rattle.cell.specs.Refusals.{cell_outcome, cross_call};
ghost use Rattle.cell_crossing.specs.Workers.{CrossingHeld};

use cell::{CellAnswer, Held, MicroParams};
use cell_judging::{answer, judge};
use cell_layout::fields;
use refusal::Verdict;
use rounding::Rounding;

// A cell judged for a crossing: 1, 2, 5, 6, 9, 14.
pub fn held(cell: &[u8], params: MicroParams, n: u64, crossed: u64, state: u64) -> Held
    ensures { CrossingHeld params n crossed cell.now state result }
{
    let verdict = judge::before_cell(params, state, cell.len());
    if !verdict.accepted() {
        return Held {
            verdict,
            shutter: 0,
            unit: 0,
        };
    }
    let nine = starts_before_first(params.t, n, crossed);
    let held = judge::held(cell, params, state);
    let verdict = held.verdict;
    Held {
        verdict: nine_first(nine, verdict),
        shutter: held.shutter,
        unit: held.unit,
    }
}

// 9 is told before 14, whatever the cell is.
fn nine_first(nine: bool, verdict: Verdict) -> Verdict
    ensures { result ≡ refuse 9 nine verdict }
{
    if nine {
        return Verdict::Refused(9);
    }
    verdict
}

// The sub-window that ends would stand before sub-window 0. A far jump does not ask for it.
fn starts_before_first(t: usize, n: u64, crossed: u64) -> bool
    requires { t ≤ 4096 }
    ensures { result ≡ (ltb 0 crossed && ltb crossed (pixels_of t) && ltb n crossed) }
{
    0 < crossed && crossed < (fields::pixels(t) as u64) && n < crossed
}

// Moves a cell that was judged, and may have been turned back, into sub-window n, `crossed` sub-windows on.
pub fn enter_held(
    cell: &mut [u8],
    params: MicroParams,
    n: u64,
    crossed: u64,
    held: Held,
    rounding: Rounding,
) -> CellAnswer
    requires { CrossingHeld params n crossed cell.old rounding.state held }
    ensures { cell_outcome cell.new result ≡ cross_call params n crossed cell.old rounding.state }
{
    let verdict = held.verdict;
    if !verdict.accepted() {
        return answer::turned_back(verdict, rounding);
    }
    let drawn = cell_crossing_steps::worker::enter_judged(
        cell,
        params.t,
        params.c,
        n,
        crossed,
        held.shutter,
        held.unit,
        rounding.state,
    );
    answer::done(drawn)
}
