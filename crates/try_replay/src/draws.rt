// The file `draws`: the calls of the crate rounding.
use crate::replay::{Records, Stop, Tally};
use crate::{answer, replay, report};
use program_text::fields;
use rounding::{DivisionAnswer, Rounding};
use std::fmt::Display;
use std::io::Read;
use std::{fmt, io};

#[derive(Clone, Copy)]
enum Kind {
    NextU64,
    UnbiasedDivU64 { v: u64, d: u64 },
    // The format keeps these numbers below 2^32.
    UnbiasedDiv { v: u64, d: u64 },
    New,
    NextInARow { draws: u32 },
    Unknown,
}

#[derive(Clone, Copy)]
struct Call {
    kind: Kind,
    state: u64,
}

#[derive(Clone, Copy, PartialEq, Eq)]
struct Answer {
    // A number: it is printed as one, and NO_SUCH_KIND is no verdict's; an enum of both would be turned back at each use.
    refused: u8,
    value: u64,
    state: u64,
    draws: u32,
}

fn low_half(n: u64) -> u32 {
    (n & 0xFFFF_FFFF) as u32
}

impl Call {
    fn of(header: &[u8; 48]) -> Call {
        let v = fields::u64_at(header, 24);
        let d = fields::u64_at(header, 32);
        let kind = match fields::u8_at(header, 0) {
            1 => Kind::NextU64,
            2 => Kind::UnbiasedDivU64 { v, d },
            3 => Kind::UnbiasedDiv { v, d },
            4 => Kind::New,
            5 => Kind::NextInARow {
                draws: fields::u32_at(header, 4),
            },
            _ => Kind::Unknown,
        };
        Call {
            kind,
            state: fields::u64_at(header, 8),
        }
    }

    fn perform(self) -> Answer {
        let rounding = Rounding { state: self.state };
        match self.kind {
            Kind::NextU64 => drawn(rounding, 1),
            Kind::UnbiasedDivU64 { v, d } => Answer::from(rounding.unbiased_div_u64(v, d)),
            Kind::UnbiasedDiv { v, d } => {
                Answer::from(rounding.unbiased_div(low_half(v), low_half(d)))
            }
            Kind::New => undrawn(0, Rounding::new(self.state)),
            Kind::NextInARow { draws } => drawn(rounding, draws),
            Kind::Unknown => undrawn(answer::NO_SUCH_KIND, rounding),
        }
    }
}

impl Display for Call {
    fn fmt<W: fmt::Write>(&self, f: &mut fmt::Formatter<W>) -> fmt::Result {
        let state = self.state;
        match self.kind {
            Kind::NextU64 => write!(f, "next_u64, state or seed {state}"),
            Kind::UnbiasedDivU64 { v, d } => {
                write!(f, "unbiased_div_u64, state or seed {state}, v {v}, d {d}")
            }
            Kind::UnbiasedDiv { v, d } => {
                write!(f, "unbiased_div, state or seed {state}, v {v}, d {d}")
            }
            Kind::New => write!(f, "Rounding::new, state or seed {state}"),
            Kind::NextInARow { draws } => {
                write!(f, "next_u64 in a row, state or seed {state}, draws {draws}")
            }
            Kind::Unknown => write!(f, "no such kind, state or seed {state}"),
        }
    }
}

impl Answer {
    fn of(header: &[u8; 48]) -> Answer {
        Answer {
            refused: 0,
            value: fields::u64_at(header, 40),
            state: fields::u64_at(header, 16),
            draws: fields::u32_at(header, 4),
        }
    }

    fn show_beside(self, rt: &impl Print, came: Answer) -> io::Result<()> {
        report::compare(rt, "refused by", self.refused, came.refused)?;
        report::compare(rt, "value", self.value, came.value)?;
        report::compare(rt, "state", self.state, came.state)?;
        report::compare(rt, "draws", self.draws, came.draws)?;
        println!(rt)
    }
}

impl From<DivisionAnswer> for Answer {
    fn from(answer: DivisionAnswer) -> Answer {
        Answer {
            refused: answer.verdict.number(),
            value: answer.value,
            state: answer.rounding.state,
            draws: answer.draws,
        }
    }
}

fn undrawn(refused: u8, rounding: Rounding) -> Answer {
    Answer {
        refused,
        value: 0,
        state: rounding.state,
        draws: 0,
    }
}

// So many draws in a row: what the last of them gives.
fn drawn(rounding: Rounding, draws: u32) -> Answer {
    let mut last = undrawn(0, rounding);
    for _ in 0..draws {
        let answer = Rounding { state: last.state }.next_u64();
        last.refused = answer.verdict.number();
        last.value = answer.value;
        last.state = answer.rounding.state;
    }
    last.draws = draws;
    last
}

#[derive(Drop)]
pub struct Draws;

impl Records for Draws {
    fn turn<P: Print, F: Read>(
        &mut self,
        rt: &P,
        file: &mut F,
        tally: Tally,
    ) -> Result<bool, Stop> {
        let header = replay::header(file)?;
        let call = Call::of(&header);
        let expected = Answer::of(&header);
        let came = call.perform();
        let right = came == expected;
        if !right && tally.wrong == 0 {
            report::call(rt, "draws", tally, call)?;
            expected.show_beside(rt, came)?;
        }
        Ok(right)
    }
}
