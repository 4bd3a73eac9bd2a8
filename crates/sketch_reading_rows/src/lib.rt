// Document 01, "Figures": what the key's cells say of one sub-window, and the minimum of it across rows. Callers have
// judged the key's cells.
#![tactic(auto)]

pub mod worker;
