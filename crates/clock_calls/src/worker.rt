// The work of the calls that move a clock on.
ghost use Rattle.std.specs.Prelude.{◌≡◌, ◌≤◌};
ghost use Rattle.refusal.specs.declared.Verdict.TheVariants.{Accepted};
ghost use Rattle.refusal.specs.Refusals.{refuse};
ghost use Rattle.clock.specs.Clock.{length_of, n_of};
ghost use Rattle.clock.specs.Refusals.{refuse_length, moved_call};

use clock::{MovedAnswer, SubWindowClock};
use refusal::Verdict;

// The answer of a call that moves a clock on: refused by 3, then by 8 if the clock is of the wrong kind for it.
pub fn moved(before: SubWindowClock, after: SubWindowClock, wrong: bool) -> MovedAnswer
    requires after_value { length_of after ≡ length_of before }
    requires before_bound { n_of before ≤ n_of after }
    ensures { result ≡ moved_call (refuse_length before (refuse 8 wrong Accepted)) before after }
{
    let verdict = clock_steps::worker::judged(before);
    if !verdict.accepted() {
        return kept(verdict, before);
    }
    if wrong {
        return kept(Verdict::Refused(8), before);
    }
    let old = clock_steps::worker::sub_window(before);
    let new = clock_steps::worker::sub_window(after);
    MovedAnswer {
        verdict,
        clock: after,
        crossed: new - old,
    }
}

fn kept(verdict: Verdict, clock: SubWindowClock) -> MovedAnswer
    ensures { result ≡ record { verdict = verdict; clock = clock; crossed = 0 } }
{
    MovedAnswer {
        verdict,
        clock,
        crossed: 0,
    }
}
