// The answers of the calls that change a cell.
ghost use Rattle.std.specs.Prelude.{◌≡◌};
ghost use Rattle.cell.specs.Workers.{turned_back, done_with};

use cell::{CellAnswer, Drawn};
use refusal::Verdict;
use rounding::Rounding;

// The answer of a call that was turned back: the random state comes back as it was, and nothing is lost.
pub fn turned_back(verdict: Verdict, rounding: Rounding) -> CellAnswer
    ensures { result ≡ turned_back verdict rounding }
{
    CellAnswer {
        verdict,
        ..done(still(rounding.state))
    }
}

// The answer of a call that was accepted.
pub fn done(drawn: Drawn) -> CellAnswer
    ensures { result ≡ done_with drawn }
{
    CellAnswer {
        verdict: Verdict::Accepted,
        rounding: Rounding { state: drawn.state },
        draws: drawn.draws,
        lost: drawn.lost,
    }
}

// What a worker returns that made no draw and lost nothing: the random state is as it was.
pub fn still(state: u64) -> Drawn
    ensures { result ≡ record { state = state; draws = 0; lost = 0 } }
{
    Drawn {
        state,
        draws: 0,
        lost: 0,
    }
}
