// Document 01, "Settings and cell" (cell.rs): one cell, a record of bytes, and what is done to it.
//
// A cell counts the items of t + 1 sub-windows in pixels of one byte. A pixel's unit is c^Z items, where the zoom Z is
// shared by all of them; the shutter holds the items that do not make up a whole unit yet. Here stand what a call takes and
// gives, and the definitions of all that is done to a cell; crates cell_reading, cell_insertion, cell_crossing and
// cell_merging have the calls.
#![tactic(auto)]

use refusal::Verdict;
use rounding::Rounding;

// The number of sub-windows of a window, and the zoom base.
#[derive(Clone, Copy)]
pub struct MicroParams {
    pub t: usize,
    pub c: u32,
}

// Where a cell's fields stand, and how many bytes it has.
#[derive(Clone, Copy)]
pub struct MicroLayout {
    pub params: MicroParams,
    pub pixels: usize,
    pub zoom_at: usize,
    pub shutter_at: usize,
    pub depth: usize,
    pub zoom_in_ceiling: u32,
}

#[derive(Clone, Copy)]
pub struct ParamsAnswer {
    pub verdict: Verdict,
    pub params: MicroParams,
}

// All 0 if refused.
#[derive(Clone, Copy)]
pub struct LayoutAnswer {
    pub verdict: Verdict,
    pub layout: MicroLayout,
}

// 0 if refused.
#[derive(Clone, Copy)]
pub struct ZoomAnswer {
    pub verdict: Verdict,
    pub zoom: u8,
}

// 0 if refused.
#[derive(Clone, Copy)]
pub struct ShutterAnswer {
    pub verdict: Verdict,
    pub shutter: u32,
}

// 0.0 if refused.
#[derive(Clone, Copy)]
pub struct PixelAnswer {
    pub verdict: Verdict,
    pub items: f64,
}

// What a call that changes a cell gives beside the bytes: the random state to go on with, how many draws it made, and how
// many units it lost.
#[derive(Clone, Copy)]
pub struct CellAnswer {
    pub verdict: Verdict,
    pub rounding: Rounding,
    pub draws: u32,
    pub lost: u32,
}

// What a worker that draws returns: the random state after it, how many draws it made, and how many units it lost. All
// three together take no more room than the first two would.
#[derive(Clone, Copy)]
pub struct Drawn {
    pub state: u64,
    pub draws: u32,
    pub lost: u32,
}

// What is known of a cell that was judged: its shutter, and its unit c^Z.
#[derive(Clone, Copy)]
pub struct Held {
    pub verdict: Verdict,
    pub shutter: u32,
    pub unit: u64,
}
