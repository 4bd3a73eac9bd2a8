// Document 02, T-01: watched codes, of which the service page asks which have newly reached their limit. Here stand what a
// call takes and gives, and its definitions; `codes_setting` and `codes_asking` have the code.
//
// The columns and the limits of the codes stand in two arrays of fixed size that the caller keeps and lends, as it does the
// grid: 8,192 columns, the codes' one behind another, are 64 codes of 128 rows.
#![tactic(auto)]

use refusal::Verdict;

// The watched codes without their columns and limits. It goes into a call by value, and the one that comes back is the one
// to go on with.
#[derive(Clone, Copy)]
pub struct Watch {
    pub count: usize,
    // The rows of the sketch for which they were set.
    pub rows: usize,
    // Bit i: code i was at or above its limit at the last asking.
    pub reached: u64,
}

// What setting a list gives: the codes to go on with, as they came if it is refused.
#[derive(Clone, Copy)]
pub struct WatchAnswer {
    pub verdict: Verdict,
    pub watch: Watch,
}

// What an asking gives beside the list's bytes: how many codes are listed, 0 if it is refused.
#[derive(Clone, Copy)]
pub struct AskAnswer {
    pub verdict: Verdict,
    pub listed: usize,
    pub watch: Watch,
}
