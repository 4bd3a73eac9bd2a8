// Document 01, "Figures": per sub-window the minimum across rows first, the sum over sub-windows after, so that a row
// which another key inflates in one sub-window does not count there. Callers have judged the key's cells.
#![tactic(auto)]

pub mod worker;
