// Document 01, "Settings and cell" and "Turning a call back": how a cell is judged before anything is done to it, and what a
// pixel of it is worth.
#![tactic(auto)]

pub mod answer;
pub mod judge;
pub mod power;
