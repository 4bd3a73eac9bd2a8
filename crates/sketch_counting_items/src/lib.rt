// Document 01, "Sketch and grid": an item and a move of the clock are judged, then done.
//
// A call judges first and writes after: a refused one leaves every byte of the grid as it came. A slice is handed on as a part,
// `&key[..]`: whole, it would be copied through memory at each call.
#![tactic(auto)]

pub mod judge;
pub mod worker;
