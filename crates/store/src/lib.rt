// Document 01, "Audit and block store": a sketch and its grid in blocks of 512 bytes.
//
// A store is what is written before the key is turned off: block 0 holds the sketch, the blocks behind it the grid. Here stand
// what a call gives, and the definitions of all that is done to a store; crate store_judging has what is tested before anything
// is written, crate store_calls the calls.
#![tactic(auto)]

use refusal::Verdict;

// The exact length of a sketch's store; 0 if refused.
#[derive(Clone, Copy)]
pub struct LengthAnswer {
    pub verdict: Verdict,
    pub length: usize,
}
