// Document 01, "Crossing" (`enter_sub_window`), in its stages: close the shutter, clear, zoom in. Callers have judged
// the cell.
#![tactic(auto)]

pub mod worker;
