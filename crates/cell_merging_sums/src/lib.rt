// Document 01, "Merge": the sums of two cells' pixels, and the zoom at which each fits a byte. Callers have judged both cells.
#![tactic(auto)]

pub mod worker;
