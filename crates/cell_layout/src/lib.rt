// Document 01, "Settings and cell": where a cell's fields stand.
#![tactic(auto)]

pub mod fields;
