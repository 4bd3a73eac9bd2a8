// Rounded divisions one after another. The numbers divided are drawn as well, from a random state of their own.
use crate::course;
use crate::course::Course;
use crate::verdicts::Told;
use rounding::{DivisionAnswer, Rounding};
use std::fmt::Display;
use std::{fmt, io};

// How a number of a run is made from a draw.
#[derive(Clone, Copy)]
pub enum Operand {
    // The same number at every turn.
    Always(u64),
    // The binary digits of the draw that are kept.
    Drawn(u64),
}

impl Operand {
    fn of(self, draw: u64) -> u64 {
        match self {
            Operand::Always(number) => number,
            Operand::Drawn(kept) => draw & kept,
        }
    }
}

// Numbers of 32 bits go through the call for such.
fn divide(rounding: Rounding, value: u64, divisor: u64) -> DivisionAnswer {
    match (u32::try_from(value), u32::try_from(divisor)) {
        (Ok(value), Ok(divisor)) => rounding.unbiased_div(value, divisor),
        _ => rounding.unbiased_div_u64(value, divisor),
    }
}

#[derive(Clone, Copy)]
struct Divided(DivisionAnswer);

impl Display for Divided {
    fn fmt<W: fmt::Write>(&self, f: &mut fmt::Formatter<W>) -> fmt::Result {
        let answer = self.0;
        let told = Told(answer.verdict);
        let value = answer.value;
        let draws = answer.draws;
        let state = answer.rounding.state;
        write!(f, "{told}, value {value}, draws {draws}, state {state}")
    }
}

// A run so far: the state that rounds, the state that the numbers are drawn from, and over all divisions the draws made,
// the calls refused, and the digest of the values.
#[derive(Drop)]
struct Divisions {
    value: Operand,
    divisor: Operand,
    rounding: Rounding,
    source: Rounding,
    draws: u64,
    refused: u64,
    digest: u64,
}

impl Divisions {
    fn draw(&mut self) -> u64 {
        let answer = self.source.next_u64();
        self.source = answer.rounding;
        answer.value
    }
}

impl Display for Divisions {
    fn fmt<W: fmt::Write>(&self, f: &mut fmt::Formatter<W>) -> fmt::Result {
        let draws = self.draws;
        let refused = self.refused;
        let digest = self.digest;
        write!(
            f,
            "; in all: draws {draws}, refused {refused}, digest {digest}"
        )
    }
}

impl Course for Divisions {
    type Answer = Divided;

    fn turn(&mut self) -> Divided {
        let value = self.value.of(self.draw());
        let divisor = self.divisor.of(self.draw());
        let answer = divide(self.rounding, value, divisor);
        self.rounding = answer.rounding;
        self.draws = self.draws.saturating_add(u64::from(answer.draws));
        if !answer.verdict.accepted() {
            self.refused = self.refused.saturating_add(1);
        }
        self.digest = course::digest(self.digest, answer.value);
        Divided(answer)
    }
}

// One division from any state, 0 too.
pub fn single(rt: &impl Print, value: u64, divisor: u64, state: u64) -> io::Result<()> {
    let divided = Divided(divide(Rounding { state }, value, divisor));
    println!(rt; "{value} / {divisor} from state {state}{divided}")
}

// Each run rounds from the seed 1 and draws its numbers from the seed 2.
pub fn run(rt: &impl Print, title: &str, value: Operand, divisor: Operand) -> io::Result<()> {
    println!(rt; "divisions: {title}")?;
    let mut divisions = Divisions {
        value,
        divisor,
        rounding: Rounding::new(1),
        source: Rounding::new(2),
        draws: 0,
        refused: 0,
        digest: 0,
    };
    course::run(rt, "division", &mut divisions)
}
