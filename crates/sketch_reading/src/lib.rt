// Document 01, "Figures": what a sketch says of a key.
#![tactic(auto)]

mod judge;
mod worker;

ghost use Rattle.std.specs.Prelude.{◌≡◌};
ghost use Rattle.sketch.specs.Refusals.{no_reading, read_call, read_with_call, mean_call};

use refusal::Verdict;
use sketch::{MeanAnswer, MicroCm, Reading, ReadingAnswer};
use sketch_reading_figures::worker::Estimated;

fn turned_back(verdict: Verdict) -> ReadingAnswer
    ensures { result ≡ record { verdict = verdict; reading = no_reading; over = 0; under = 0 } }
{
    ReadingAnswer {
        verdict,
        reading: Reading {
            over: 0.0,
            under: 0.0,
            linear: 0.0,
            fraction: 0.0,
        },
        over: 0,
        under: 0,
    }
}

fn told(verdict: Verdict, figures: Estimated) -> ReadingAnswer
    ensures { result ≡ record { verdict = verdict; reading = figures.reading; over = figures.over; under = figures.under } }
{
    ReadingAnswer {
        verdict,
        reading: figures.reading,
        over: figures.over,
        under: figures.under,
    }
}

// The figures of a key, Linear by the clock's fraction.
pub fn estimate(sketch: MicroCm, key: &[u32], grid: &[u8]) -> ReadingAnswer
    ensures { result ≡ read_call sketch key.now grid.now }
{
    let verdict = judge::read(sketch, key, grid);
    if !verdict.accepted() {
        return turned_back(verdict);
    }
    let fraction = clock_steps::worker::fraction(sketch.clock);
    told(
        verdict,
        sketch_reading_figures::worker::estimate(sketch, grid, key, fraction),
    )
}

// The figures of a key, Linear by a given fraction.
pub fn estimate_with(sketch: MicroCm, key: &[u32], fraction: f64, grid: &[u8]) -> ReadingAnswer
    ensures { result ≡ read_with_call sketch key.now fraction grid.now }
{
    let verdict = judge::read_with(sketch, key, fraction, grid);
    if !verdict.accepted() {
        return turned_back(verdict);
    }
    told(
        verdict,
        sketch_reading_figures::worker::estimate(sketch, grid, key, fraction),
    )
}

// The mean of a key: Under for each sub-window begun.
pub fn mean(sketch: MicroCm, key: &[u32], grid: &[u8]) -> MeanAnswer
    ensures { result ≡ mean_call sketch key.now grid.now }
{
    let verdict = judge::read(sketch, key, grid);
    if !verdict.accepted() {
        return MeanAnswer { verdict, mean: 0 };
    }
    MeanAnswer {
        verdict,
        mean: worker::mean(sketch, grid, key),
    }
}
