// Document 01, "Clock" (microscope.rs): a clock is judged, read, moved on, begun anew and compared.
#![tactic(auto)]

pub mod worker;

ghost use Rattle.std.specs.Prelude.{◌≡◌};
ghost use Rattle.clock.specs.Clock.{same_frame};

use clock::SubWindowClock;

// Whether two clocks number their sub-windows alike: then equal n stand for the same span of the stream.
pub fn same_frame(clock: SubWindowClock, other: SubWindowClock) -> bool
    ensures { result ≡ same_frame clock other }
{
    match clock {
        SubWindowClock::CountBased {
            items_per_sub_window: mine,
            ..
        } => match other {
            SubWindowClock::CountBased {
                items_per_sub_window: theirs,
                ..
            } => mine == theirs,
            SubWindowClock::TimeBased { .. } => false,
        },
        SubWindowClock::TimeBased {
            sub_window_len: mine,
            epoch: my_epoch,
            ..
        } => match other {
            SubWindowClock::CountBased { .. } => false,
            SubWindowClock::TimeBased {
                sub_window_len: theirs,
                epoch: their_epoch,
                ..
            } => { mine == theirs && my_epoch == their_epoch }
        },
    }
}
