// The answers of the calls that may change a sketch.
ghost use Rattle.std.specs.Prelude.{◌≡◌};
ghost use Rattle.sketch.specs.Refusals.{undrawn, no_sketch};
ghost use Rattle.sketch.specs.Workers.{went_on};

use cell::MicroParams;
use clock::SubWindowClock;
use refusal::Verdict;
use rounding::Rounding;
use sketch::{MicroCm, Passed, SketchAnswer};

// No sketch: every call refuses this one.
pub fn no_sketch() -> MicroCm
    ensures { result ≡ no_sketch }
{
    MicroCm {
        rows: 0,
        cols: 0,
        params: MicroParams { t: 0, c: 0 },
        clock: SubWindowClock::CountBased {
            items_per_sub_window: 0,
            seen: 0,
        },
        rounding: Rounding { state: 0 },
    }
}

// The answer of a call that drew nothing and lost nothing.
pub fn undrawn(verdict: Verdict, sketch: MicroCm) -> SketchAnswer
    ensures { result ≡ undrawn verdict sketch }
{
    SketchAnswer {
        verdict,
        sketch,
        draws: 0,
        lost: 0,
    }
}

// The answer of an accepted call: the sketch goes on with this clock and with the random state that a pass returned, and
// tells what the pass drew and lost.
pub fn went_on(sketch: MicroCm, clock: SubWindowClock, passed: Passed) -> SketchAnswer
    ensures { result ≡ went_on sketch clock passed }
{
    SketchAnswer {
        verdict: Verdict::Accepted,
        sketch: MicroCm {
            clock,
            rounding: Rounding {
                state: passed.state,
            },
            ..sketch
        },
        draws: passed.draws,
        lost: passed.lost,
    }
}
