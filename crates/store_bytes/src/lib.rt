// Document 01, "Audit and block store": numbers in bytes and the zero fill, which blocks and the header are written and
// read by.
#![tactic(auto)]

pub mod bytes;
