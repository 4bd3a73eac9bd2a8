// Document 01, "Audit and block store": the block of 512 bytes, and blocks one behind another. What they carry is none of
// this crate's business; crate store puts a sketch and its grid into them.
#![tactic(auto)]

pub mod block;
pub mod chain;
