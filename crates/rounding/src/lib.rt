// Document 01, "Draws" (cell.rs, `Rounding`): the random state, a draw from it, and the division that it rounds.
#![tactic(auto)]

pub mod worker;

ghost use Rattle.std.specs.Prelude.{◌≡◌};
ghost use Rattle.rounding.specs.Draws.{seeded};
ghost use Rattle.rounding.specs.Refusals.{draw_call, division_call};

use refusal::Verdict;

// The random state. It goes into a call by value, and the one that comes back is the one to go on with: a copy kept
// aside would give the same draws again.
#[derive(Clone, Copy)]
pub struct Rounding {
    pub state: u64,
}

// The state that a draw leaves, and the number that it yields.
#[derive(Clone, Copy)]
pub struct Draw {
    pub state: u64,
    pub value: u64,
}

// A rounded quotient, the state after it, and how many draws it took.
#[derive(Clone, Copy)]
pub struct Divided {
    pub value: u64,
    pub state: u64,
    pub draws: u32,
}

#[derive(Clone, Copy)]
pub struct DrawAnswer {
    pub verdict: Verdict,
    pub value: u64,
    pub rounding: Rounding,
}

#[derive(Clone, Copy)]
pub struct DivisionAnswer {
    pub verdict: Verdict,
    pub value: u64,
    pub rounding: Rounding,
    pub draws: u32,
}

impl Rounding {
    // Any seed will do: xorshift would stay at 0, so 0 is replaced.
    pub fn new(seed: u64) -> Rounding
        ensures { result.state ≡ seeded seed }
    {
        if seed == 0 {
            return Rounding {
                state: 0x9E37_79B9_7F4A_7C15,
            };
        }
        Rounding { state: seed }
    }

    // One draw.
    pub fn next_u64(self) -> DrawAnswer
        ensures { result ≡ draw_call self.state }
    {
        if self.state == 0 {
            return DrawAnswer {
                verdict: Verdict::Refused(5),
                value: 0,
                rounding: self,
            };
        }
        let drawn = worker::draw(self.state);
        DrawAnswer {
            verdict: Verdict::Accepted,
            value: drawn.value,
            rounding: Rounding { state: drawn.state },
        }
    }

    // value / divisor, the remainder rounded up with the probability that it has of the divisor: rounding always down
    // would make every count of a zoomed cell too low.
    pub fn unbiased_div_u64(self, value: u64, divisor: u64) -> DivisionAnswer
        ensures { result ≡ division_call value divisor self.state }
    {
        let state = self.state;
        if state == 0 {
            return DivisionAnswer {
                verdict: Verdict::Refused(5),
                value: 0,
                rounding: self,
                draws: 0,
            };
        }
        if divisor == 0 {
            return DivisionAnswer {
                verdict: Verdict::Refused(15),
                value: 0,
                rounding: self,
                draws: 0,
            };
        }
        let divided = worker::divide(value, divisor, state);
        DivisionAnswer {
            verdict: Verdict::Accepted,
            value: divided.value,
            rounding: Rounding {
                state: divided.state,
            },
            draws: divided.draws,
        }
    }

    // The same of 32-bit numbers.
    pub fn unbiased_div(self, value: u32, c: u32) -> DivisionAnswer
        ensures { result ≡ division_call value c self.state }
    {
        self.unbiased_div_u64(value as u64, c as u64)
    }
}
