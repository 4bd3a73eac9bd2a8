// Document 01, "Clock" (microscope.rs): the calls on a clock alone.
#![tactic(auto)]

mod worker;

ghost use Rattle.std.specs.Prelude.{◌≡◌};
ghost use Rattle.clock.specs.declared.SubWindowClock.TheVariants.{CountBased, TimeBased};
ghost use Rattle.clock.specs.Refusals.{made_call, n_call, fraction_call, tick_call, advance_call};

use clock::{ClockAnswer, FractionAnswer, MovedAnswer, SubWindowAnswer, SubWindowClock};

// A clock of items, at its start.
pub fn count_based(items_per_sub_window: u64) -> ClockAnswer
    ensures { result ≡ made_call (CountBased items_per_sub_window 0) }
{
    let clock = SubWindowClock::CountBased {
        items_per_sub_window,
        seen: 0,
    };
    let verdict = clock_steps::worker::judged(clock);
    ClockAnswer { verdict, clock }
}

// A clock of time, at its start: the epoch.
pub fn time_based(sub_window_len: u64, epoch: u64) -> ClockAnswer
    ensures { result ≡ made_call (TimeBased sub_window_len epoch epoch) }
{
    let clock = SubWindowClock::TimeBased {
        sub_window_len,
        epoch,
        now: epoch,
    };
    let verdict = clock_steps::worker::judged(clock);
    ClockAnswer { verdict, clock }
}

pub fn n(clock: SubWindowClock) -> SubWindowAnswer
    ensures { result ≡ n_call clock }
{
    let verdict = clock_steps::worker::judged(clock);
    if !verdict.accepted() {
        return SubWindowAnswer { verdict, n: 0 };
    }
    SubWindowAnswer {
        verdict,
        n: clock_steps::worker::sub_window(clock),
    }
}

pub fn residual_fraction(clock: SubWindowClock) -> FractionAnswer
    ensures { result ≡ fraction_call clock }
{
    let verdict = clock_steps::worker::judged(clock);
    if !verdict.accepted() {
        return FractionAnswer {
            verdict,
            fraction: 0.0,
        };
    }
    FractionAnswer {
        verdict,
        fraction: clock_steps::worker::fraction(clock),
    }
}

// One more item on a clock of items.
pub fn tick(clock: SubWindowClock) -> MovedAnswer
    ensures { result ≡ tick_call clock }
{
    let after = clock_steps::worker::ticked(clock);
    worker::moved(clock, after, !clock_steps::worker::is_count(clock))
}

// A reading on a clock of time.
pub fn advance_to(clock: SubWindowClock, timestamp: u64) -> MovedAnswer
    ensures { result ≡ advance_call clock timestamp }
{
    let after = clock_steps::worker::advanced(clock, timestamp);
    worker::moved(clock, after, clock_steps::worker::is_count(clock))
}
