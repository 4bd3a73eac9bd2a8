// The work of a clock, for the crates above, which have judged its length once for all calls that follow.
ghost use Rattle.std.specs.Prelude.{◌≡◌};
ghost use Rattle.clock.specs.Clock.{length_of, passed_of, n_of, fraction_of, is_count, tick_of, advance_of, start_of};
ghost use Rattle.clock.specs.Workers.{GoodLength, Onward};
ghost use Rattle.clock.specs.Refusals.{length_verdict};

use clock::SubWindowClock;
use refusal::Verdict;

// The longest sub-window: up to here every remainder and length is an f64 exactly.
const LONGEST: u64 = 1 << 53;

pub fn judged(clock: SubWindowClock) -> Verdict
    ensures { result ≡ length_verdict clock }
{
    let length = length(clock);
    if length < 1 {
        return Verdict::Refused(3);
    }
    if length > LONGEST {
        return Verdict::Refused(3);
    }
    Verdict::Accepted
}

pub fn length(clock: SubWindowClock) -> u64
    ensures { result ≡ length_of clock }
{
    match clock {
        SubWindowClock::CountBased {
            items_per_sub_window,
            ..
        } => items_per_sub_window,
        SubWindowClock::TimeBased { sub_window_len, .. } => sub_window_len,
    }
}

pub fn is_count(clock: SubWindowClock) -> bool
    ensures { result ≡ is_count clock }
{
    match clock {
        SubWindowClock::CountBased { .. } => true,
        SubWindowClock::TimeBased { .. } => false,
    }
}

fn passed(clock: SubWindowClock) -> u64
    ensures { result ≡ passed_of clock }
{
    match clock {
        SubWindowClock::CountBased { seen, .. } => seen,
        SubWindowClock::TimeBased { epoch, now, .. } => {
            if now < epoch {
                return 0;
            }
            now - epoch
        }
    }
}

// Needs no judge, so that a call works it out once, before it judges: a length of 0, which is refused, gives 0.
pub fn sub_window(clock: SubWindowClock) -> u64
    ensures { result ≡ n_of clock }
{
    let since = passed(clock);
    let length = length(clock);
    if length == 0 {
        return 0;
    }
    since / length
}

pub fn fraction(clock: SubWindowClock) -> f64
    requires { GoodLength clock }
    ensures { result ≡ fraction_of clock }
{
    let since = passed(clock);
    let length = length(clock);
    let remainder = since % length;
    1.0 - (remainder as f64) / (length as f64)
}

pub fn ticked(clock: SubWindowClock) -> SubWindowClock
    ensures { Onward clock (tick_of clock) result }
{
    match clock {
        SubWindowClock::CountBased {
            items_per_sub_window,
            seen,
        } => {
            if seen < u64::MAX {
                return SubWindowClock::CountBased {
                    items_per_sub_window,
                    seen: seen + 1,
                };
            }
            // A count that wrapped to 0 would send n backwards.
            SubWindowClock::CountBased {
                items_per_sub_window,
                seen: u64::MAX,
            }
        }
        SubWindowClock::TimeBased { .. } => clock,
    }
}

// The sub-window after a tick, from the present one: where that is known a multiplication stands for the second division.
pub fn next_sub_window(clock: SubWindowClock, n: u64) -> u64
    requires { n ≡ n_of clock }
    ensures { result ≡ n_of (tick_of clock) }
{
    match clock {
        SubWindowClock::CountBased {
            items_per_sub_window,
            seen,
        } => {
            // A full count stays: the tick leaves it.
            if seen == u64::MAX {
                return n;
            }
            if seen + 1 - n * items_per_sub_window == items_per_sub_window {
                return n + 1;
            }
            n
        }
        SubWindowClock::TimeBased { .. } => n,
    }
}

pub fn advanced(clock: SubWindowClock, reading: u64) -> SubWindowClock
    ensures { Onward clock (advance_of clock reading) result }
{
    match clock {
        SubWindowClock::CountBased { .. } => clock,
        SubWindowClock::TimeBased {
            sub_window_len,
            epoch,
            now,
        } => {
            // An older reading would rewind the window.
            if reading < now {
                return clock;
            }
            SubWindowClock::TimeBased {
                sub_window_len,
                epoch,
                now: reading,
            }
        }
    }
}

pub fn started(clock: SubWindowClock) -> SubWindowClock
    ensures { result ≡ start_of clock }
{
    match clock {
        SubWindowClock::CountBased {
            items_per_sub_window,
            ..
        } => {
            SubWindowClock::CountBased {
                items_per_sub_window,
                seen: 0,
            }
        }
        SubWindowClock::TimeBased {
            sub_window_len,
            epoch,
            ..
        } => {
            SubWindowClock::TimeBased {
                sub_window_len,
                epoch,
                now: epoch,
            }
        }
    }
}
