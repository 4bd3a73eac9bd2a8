// Document 01, "Sketch and grid" (microscope.rs, vector3d.rs): a grid of cells behind a clock.
//
// The grid is lent by the caller: rows * cols cells of `depth` bytes, by row, then column. A key is lent too: one column
// for each row. Here stand what a call takes and gives, and the definitions; crates sketch_start, sketch_counting,
// sketch_reading, sketch_merging and sketch_queries have the calls.
#![tactic(auto)]

use cell::MicroParams;
use clock::SubWindowClock;
use refusal::Verdict;
use rounding::Rounding;

// The sketch without its grid. It goes into a call by value, and the one that comes back is the one to go on with.
#[derive(Clone, Copy)]
pub struct MicroCm {
    pub rows: usize,
    pub cols: usize,
    pub params: MicroParams,
    pub clock: SubWindowClock,
    pub rounding: Rounding,
}

// What a call that may change the sketch gives beside the grid's bytes: the sketch, as it came if the call is refused, how
// many draws it made, and how many units it lost, over all cells.
#[derive(Clone, Copy)]
pub struct SketchAnswer {
    pub verdict: Verdict,
    pub sketch: MicroCm,
    pub draws: u64,
    pub lost: u64,
}

// One reading of a key: its three figures, and the fraction that the linear one used.
#[derive(Clone, Copy)]
pub struct Reading {
    pub over: f64,
    pub under: f64,
    pub linear: f64,
    pub fraction: f64,
}

// A reading beside the same figures as whole numbers; all 0 if refused.
#[derive(Clone, Copy)]
pub struct ReadingAnswer {
    pub verdict: Verdict,
    pub reading: Reading,
    pub over: u64,
    pub under: u64,
}

// 0 if refused.
#[derive(Clone, Copy)]
pub struct MeanAnswer {
    pub verdict: Verdict,
    pub mean: u64,
}

// 0 if refused.
#[derive(Clone, Copy)]
pub struct HighestAnswer {
    pub verdict: Verdict,
    pub zoom: u8,
}

// What an audit finds: the index is row * cols + column.
#[derive(Clone, Copy)]
pub enum Finding {
    Sound,
    Unsound(usize),
}

// `Sound` if refused: look at the verdict first.
#[derive(Clone, Copy)]
pub struct AuditAnswer {
    pub verdict: Verdict,
    pub audit: Finding,
}

// What a pass over cells returns: the random state after it, how many draws it made, and how many units it lost.
#[derive(Clone, Copy)]
pub struct Passed {
    pub state: u64,
    pub draws: u64,
    pub lost: u64,
}
