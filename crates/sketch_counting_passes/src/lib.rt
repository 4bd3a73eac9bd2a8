// Document 01, "Sketch and grid": an item goes into the key's cell of each row, in order, all drawing from one random
// state; and every cell crosses, in grid order. Callers have judged the sketch and the cells.
#![tactic(auto)]

pub mod worker;
