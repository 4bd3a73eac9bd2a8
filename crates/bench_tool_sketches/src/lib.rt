// What the bench tool does with its sketches, but for files and calls on watched codes, and what it says: to a line that is no
// command, of a call that was refused, and of a sketch that is only looked at.
#![tactic(auto)]

pub mod card;
pub mod cases;
pub mod fresh;
pub mod items;
pub mod kept_lists;
pub mod line;
pub mod merge;
mod pictures;
pub mod queries;
mod readings;
pub mod slots;
#[cfg(test)]
mod tests;
pub mod trouble;
pub mod usage;
pub mod verdicts;
