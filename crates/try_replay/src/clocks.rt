// The file `clock`: the calls of the crate clock_calls, and `same_frame`.
use crate::answer::Bits;
use crate::replay::{Records, Stop, Tally};
use crate::{answer, replay, report};
use clock::{MovedAnswer, SubWindowClock};
use program_text::fields;
use std::fmt::Display;
use std::io::Read;
use std::{fmt, io};

// A clock's fields; its moment is what it has seen, or its now. A record has an epoch for either kind.
#[derive(Clone, Copy)]
pub struct Fields {
    pub timed: bool,
    pub length: u64,
    pub epoch: u64,
    pub moment: u64,
}

impl Fields {
    // Length, epoch and moment stand one behind another.
    pub fn at(record: &[u8], at: usize, timed: bool) -> Fields {
        Fields {
            timed,
            length: fields::u64_at(record, at),
            epoch: fields::u64_at(record, at.saturating_add(8)),
            moment: fields::u64_at(record, at.saturating_add(16)),
        }
    }
}

impl From<Fields> for SubWindowClock {
    fn from(fields: Fields) -> SubWindowClock {
        if fields.timed {
            SubWindowClock::TimeBased {
                sub_window_len: fields.length,
                epoch: fields.epoch,
                now: fields.moment,
            }
        } else {
            SubWindowClock::CountBased {
                items_per_sub_window: fields.length,
                seen: fields.moment,
            }
        }
    }
}

impl From<SubWindowClock> for Fields {
    fn from(clock: SubWindowClock) -> Fields {
        match clock {
            SubWindowClock::CountBased {
                items_per_sub_window,
                seen,
            } => Fields {
                timed: false,
                length: items_per_sub_window,
                epoch: 0,
                moment: seen,
            },
            SubWindowClock::TimeBased {
                sub_window_len,
                epoch,
                now,
            } => Fields {
                timed: true,
                length: sub_window_len,
                epoch,
                moment: now,
            },
        }
    }
}

impl Display for Fields {
    fn fmt<W: fmt::Write>(&self, f: &mut fmt::Formatter<W>) -> fmt::Result {
        let kind = if self.timed { "time" } else { "count" };
        let length = self.length;
        let epoch = self.epoch;
        let moment = self.moment;
        write!(
            f,
            ", {kind}, length {length}, epoch {epoch}, seen or now {moment}"
        )
    }
}

#[derive(Clone, Copy)]
enum Kind {
    Read,
    Tick,
    AdvanceTo { reading: u64 },
    SameFrame { other: Fields },
    Unknown,
}

#[derive(Clone, Copy)]
struct Call {
    kind: Kind,
    clock: Fields,
}

// How the call leaves the clock, and what it then reads. A clock that was moved keeps its frame: 1, and 0 for another.
#[derive(Clone, Copy, PartialEq, Eq)]
struct Answer {
    // A number: it is printed as one, and NO_SUCH_KIND is no verdict's; an enum of both would be turned back at each use.
    refused: u8,
    moment: u64,
    crossed: u64,
    n: u64,
    fraction: Bits,
    // A number: a broken record may hold any, and it is printed.
    same_frame: u8,
}

impl Call {
    fn of(header: &[u8; 80]) -> Call {
        let kind = match fields::u8_at(header, 0) {
            1 => Kind::Read,
            2 => Kind::Tick,
            3 => Kind::AdvanceTo {
                reading: fields::u64_at(header, 32),
            },
            4 => Kind::SameFrame {
                other: Fields::at(header, 32, fields::u8_at(header, 2) != 0),
            },
            _ => Kind::Unknown,
        };
        Call {
            kind,
            clock: Fields::at(header, 8, fields::u8_at(header, 1) != 0),
        }
    }

    fn perform(self) -> Answer {
        let clock = SubWindowClock::from(self.clock);
        match self.kind {
            Kind::Read => read(0, clock, 0, clock),
            Kind::Tick => moved(clock, clock_calls::tick(clock)),
            Kind::AdvanceTo { reading } => moved(clock, clock_calls::advance_to(clock, reading)),
            Kind::SameFrame { other } => read(0, clock, 0, SubWindowClock::from(other)),
            Kind::Unknown => read(answer::NO_SUCH_KIND, clock, 0, clock),
        }
    }
}

impl Display for Call {
    fn fmt<W: fmt::Write>(&self, f: &mut fmt::Formatter<W>) -> fmt::Result {
        let clock = self.clock;
        match self.kind {
            Kind::Read => write!(f, "n and residual_fraction{clock}"),
            Kind::Tick => write!(f, "tick{clock}"),
            Kind::AdvanceTo { reading } => write!(f, "advance_to{clock}, reading {reading}"),
            Kind::SameFrame { other } => write!(f, "same_frame{clock}{other}"),
            Kind::Unknown => write!(f, "no such kind{clock}"),
        }
    }
}

fn moved(before: SubWindowClock, answer: MovedAnswer) -> Answer {
    read(
        answer.verdict.number(),
        answer.clock,
        answer.crossed,
        before,
    )
}

// What a clock reads, and whether it is in the other's frame.
fn read(refused: u8, clock: SubWindowClock, crossed: u64, other: SubWindowClock) -> Answer {
    let n = clock_calls::n(clock);
    let fraction = clock_calls::residual_fraction(clock);
    Answer {
        refused: answer::first(&[refused, n.verdict.number(), fraction.verdict.number()]),
        moment: Fields::from(clock).moment,
        crossed,
        n: n.n,
        fraction: Bits::of(fraction.fraction),
        same_frame: u8::from(clock_steps::same_frame(clock, other)),
    }
}

impl Answer {
    fn of(header: &[u8; 80]) -> Answer {
        let frames = fields::u8_at(header, 0) == 4;
        Answer {
            refused: 0,
            moment: fields::u64_at(header, if frames { 24 } else { 48 }),
            crossed: fields::u64_at(header, 56),
            n: fields::u64_at(header, 64),
            fraction: Bits::at(header, 72),
            same_frame: if frames { fields::u8_at(header, 3) } else { 1 },
        }
    }

    fn show_beside(self, rt: &impl Print, came: Answer) -> io::Result<()> {
        report::compare(rt, "refused by", self.refused, came.refused)?;
        report::compare(rt, "seen or now", self.moment, came.moment)?;
        report::compare(rt, "crossed", self.crossed, came.crossed)?;
        report::compare(rt, "n", self.n, came.n)?;
        report::compare(rt, "fraction", self.fraction, came.fraction)?;
        report::compare(rt, "same frame", self.same_frame, came.same_frame)?;
        println!(rt)
    }
}

#[derive(Drop)]
pub struct Clocks;

impl Records for Clocks {
    fn turn<P: Print, F: Read>(
        &mut self,
        rt: &P,
        file: &mut F,
        tally: Tally,
    ) -> Result<bool, Stop> {
        let header = replay::header(file)?;
        let call = Call::of(&header);
        let expected = Answer::of(&header);
        let came = call.perform();
        let right = came == expected;
        if !right && tally.wrong == 0 {
            report::call(rt, "clock", tally, call)?;
            expected.show_beside(rt, came)?;
        }
        Ok(right)
    }
}
