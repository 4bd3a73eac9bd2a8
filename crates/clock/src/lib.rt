// Document 01, "Clock" (microscope.rs): what advances the sub-window number, and how far into the present sub-window it is.
//
// Here stand what a call takes and gives, and the definitions of all that is done to a clock; crate clock_steps has what
// a sketch does with its clock, crate clock_calls the calls on a clock alone.
#![tactic(auto)]

use refusal::Verdict;

// A sub-window is a number of items, or a span of time in whatever unit the caller's readings use.
#[derive(Clone, Copy)]
pub enum SubWindowClock {
    CountBased {
        items_per_sub_window: u64,
        seen: u64,
    },
    TimeBased {
        sub_window_len: u64,
        epoch: u64,
        now: u64,
    },
}

// A clock, or the number by which it was refused; a refused clock is handed back as it came.
#[derive(Clone, Copy)]
pub struct ClockAnswer {
    pub verdict: Verdict,
    pub clock: SubWindowClock,
}

// The present sub-window; 0 if refused.
#[derive(Clone, Copy)]
pub struct SubWindowAnswer {
    pub verdict: Verdict,
    pub n: u64,
}

// The fraction of the oldest sub-window that is still inside the window; 0.0 if refused.
#[derive(Clone, Copy)]
pub struct FractionAnswer {
    pub verdict: Verdict,
    pub fraction: f64,
}

// A clock that was moved on, and how many sub-windows began by it; as it came, and 0, if refused.
#[derive(Clone, Copy)]
pub struct MovedAnswer {
    pub verdict: Verdict,
    pub clock: SubWindowClock,
    pub crossed: u64,
}
