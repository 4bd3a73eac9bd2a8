// What comes of a call on a sketch.
use crate::answer;
use crate::answer::Bits;
use crate::clocks::Fields;
use crate::sketches::call::{Answer, Call, Figures, Reading};
use crate::sketches::grid;
use crate::sketches::record::Record;
use clock::SubWindowClock;
use program_text::floats;
use refusal::Verdict;
use rounding::Rounding;
use sketch::{HighestAnswer, MicroCm, ReadingAnswer, SketchAnswer};

// The sketch that is merged in, with its grid.
#[derive(Clone, Copy)]
pub struct Merged<'a> {
    pub sketch: MicroCm,
    pub grid: &'a [u8],
}

// What a call gives beside the grid's bytes.
#[derive(Clone, Copy)]
pub struct Outcome {
    // A number: it is printed as one, and NO_SUCH_KIND is no verdict's; an enum of both would be turned back at each use.
    refused: u8,
    pub sketch: MicroCm,
    draws: u64,
    reading: Reading,
}

impl Outcome {
    pub fn of(record: Record<'_>, sketch: MicroCm, grid: &mut [u8], other: Merged<'_>) -> Outcome {
        let key = record.key;
        match record.call {
            Call::WithDimensions(fresh) => Outcome::from(made(fresh, grid)),
            Call::Set { moment, state } => still(0, set(sketch, moment, state)),
            Call::Update { .. } | Call::UpdateAt { .. } => {
                counted(record.call, sketch, key, grid)
            }
            Call::AdvanceTo { timestamp } => {
                Outcome::from(sketch_counting::advance_to(sketch, timestamp, grid))
            }
            Call::Estimate => read(sketch, sketch_reading::estimate(sketch, key, grid)),
            Call::EstimateWith { fraction } => {
                let fraction = floats::of_bits(fraction);
                read(
                    sketch,
                    sketch_reading::estimate_with(sketch, key, fraction, grid),
                )
            }
            Call::Merge => merge_in(sketch, grid, other),
            Call::MaxZoom => highest(sketch, sketch_queries::max_zoom(sketch, grid)),
            Call::SetGrid => still(written(record.shown, grid), sketch),
            Call::Unknown => still(answer::NO_SUCH_KIND, sketch),
        }
    }

    // An outcome as a record has it; `before` has the settings that are to be kept.
    pub fn answer(self, before: MicroCm, grid: &[u8]) -> Answer {
        let sketch = self.sketch;
        let n = clock_calls::n(sketch.clock);
        Answer {
            refused: answer::first(&[self.refused, n.verdict.number()]),
            n: n.n,
            moment: Fields::from(sketch.clock).moment,
            state: sketch.rounding.state,
            draws: self.draws,
            digest: grid::digest(grid),
            kept: same_settings(sketch, before),
            reading: self.reading,
        }
    }
}

impl From<SketchAnswer> for Outcome {
    fn from(answer: SketchAnswer) -> Outcome {
        Outcome {
            draws: answer.draws,
            ..still(answer.verdict.number(), answer.sketch)
        }
    }
}

fn still(refused: u8, sketch: MicroCm) -> Outcome {
    Outcome {
        refused,
        sketch,
        draws: 0,
        reading: Reading::Nothing,
    }
}

fn given(verdict: Verdict, sketch: MicroCm, reading: Reading) -> Outcome {
    Outcome {
        reading,
        ..still(verdict.number(), sketch)
    }
}

fn made(fresh: MicroCm, grid: &mut [u8]) -> SketchAnswer {
    sketch_start::with_dimensions(
        fresh.rows,
        fresh.cols,
        fresh.params,
        fresh.clock,
        fresh.rounding.state,
        grid,
    )
}

// No call of ours: the sketch is taken where streams hardly get it.
fn set(sketch: MicroCm, moment: u64, state: u64) -> MicroCm {
    let clock = Fields {
        moment,
        ..Fields::from(sketch.clock)
    };
    MicroCm {
        clock: SubWindowClock::from(clock),
        rounding: Rounding { state },
        ..sketch
    }
}

// No call of ours either. A grid of another size is no record of the format.
fn written(shown: &[u8], grid: &mut [u8]) -> u8 {
    if shown.len() != grid.len() {
        return answer::NO_SUCH_KIND;
    }
    grid.copy_from_slice(shown);
    0
}

// The same item so many times: the first refusal, and the draws of all.
fn counted(call: Call, sketch: MicroCm, key: &[u32], grid: &mut [u8]) -> Outcome {
    let times = match call {
        Call::Update { times } | Call::UpdateAt { times, .. } => times,
        _ => 0,
    };
    let mut outcome = still(0, sketch);
    for _ in 0..times {
        let now = match call {
            Call::UpdateAt { timestamp, .. } => {
                sketch_counting::update_at(outcome.sketch, key, timestamp, grid)
            }
            _ => sketch_counting::update(outcome.sketch, key, grid),
        };
        outcome.refused = answer::first(&[outcome.refused, now.verdict.number()]);
        outcome.sketch = now.sketch;
        outcome.draws = outcome.draws.saturating_add(now.draws);
    }
    outcome
}

fn read(sketch: MicroCm, answer: ReadingAnswer) -> Outcome {
    let figures = answer.reading;
    let figures = Figures {
        over: Bits::of(figures.over),
        under: Bits::of(figures.under),
        linear: Bits::of(figures.linear),
        fraction: Bits::of(figures.fraction),
        whole_over: whole(answer.over),
        whole_under: whole(answer.under),
    };
    given(answer.verdict, sketch, Reading::Figures(figures))
}

// A whole number's bits as f64.
fn whole(n: u64) -> Bits {
    Bits::of(std::num::nearest_u64_to_f64(n))
}

fn merge_in(sketch: MicroCm, grid: &mut [u8], other: Merged<'_>) -> Outcome {
    let answer = sketch_merging::merge(sketch, grid, other.sketch, other.grid);
    Outcome {
        reading: Reading::MergedIn(grid::digest(other.grid)),
        ..Outcome::from(answer)
    }
}

fn highest(sketch: MicroCm, answer: HighestAnswer) -> Outcome {
    given(
        answer.verdict,
        sketch,
        Reading::MaxZoom(u64::from(answer.zoom)),
    )
}

fn same_settings(one: MicroCm, other: MicroCm) -> bool {
    one.rows == other.rows
        && one.cols == other.cols
        && one.params.t == other.params.t
        && one.params.c == other.params.c
        && clock_steps::same_frame(one.clock, other.clock)
}
