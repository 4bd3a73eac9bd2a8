// Document 01, "Sketch and grid" and "Turning a call back": how a sketch, a key and cells are judged, and where a cell stands.
#![tactic(auto)]

pub mod answer;
pub mod grid;
pub mod judge;
