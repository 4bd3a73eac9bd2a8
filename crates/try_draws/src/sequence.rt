// Draws one after another.
use crate::course;
use crate::course::Course;
use crate::verdicts::Told;
use rounding::{DrawAnswer, Rounding};
use std::fmt::Display;
use std::{fmt, io};

#[derive(Clone, Copy)]
struct Drawn(DrawAnswer);

impl Display for Drawn {
    fn fmt<W: fmt::Write>(&self, f: &mut fmt::Formatter<W>) -> fmt::Result {
        let answer = self.0;
        let told = Told(answer.verdict);
        let value = answer.value;
        let state = answer.rounding.state;
        write!(f, "{told}, value {value}, state {state}")
    }
}

// A run so far: the random state, and the digest of all values.
#[derive(Drop)]
struct Draws {
    rounding: Rounding,
    digest: u64,
}

impl Display for Draws {
    fn fmt<W: fmt::Write>(&self, f: &mut fmt::Formatter<W>) -> fmt::Result {
        write!(f, ", digest {}", self.digest)
    }
}

impl Course for Draws {
    type Answer = Drawn;

    fn turn(&mut self) -> Drawn {
        let answer = self.rounding.next_u64();
        self.rounding = answer.rounding;
        self.digest = course::digest(self.digest, answer.value);
        Drawn(answer)
    }
}

// One draw from any state, 0 too.
pub fn single(rt: &impl Print, state: u64) -> io::Result<()> {
    let drawn = Drawn(Rounding { state }.next_u64());
    println!(rt; "draw from state {state}{drawn}")
}

pub fn run(rt: &impl Print, seed: u64) -> io::Result<()> {
    println!(rt; "draws from seed {seed}")?;
    let mut draws = Draws {
        rounding: Rounding::new(seed),
        digest: 0,
    };
    course::run(rt, "draw", &mut draws)
}
