// Document 01, "Audit and block store": how a sketch's store is judged, and how long it is.
#![tactic(auto)]

pub mod judge;
