// What the programs share: lines, words and numbers in, words and numbers out, whole files. Nothing here knows of sketches but
// the names of what stands in a line: columns and limits are numbers in it.
#![tactic(auto)]

pub mod columns;
pub mod fields;
pub mod files;
pub mod floats;
pub mod lines;
pub mod lists;
pub mod numbers;
pub mod print;
pub mod slices;
pub mod words;
