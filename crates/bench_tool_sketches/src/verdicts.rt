// Document 01, "Turning a call back", and what document 02 adds to its table, in words.
ghost use Rattle.std.specs.Prelude.{◌↔◌, IsOk, IsTrue};
ghost use Rattle.refusal.specs.Refusals.{is_accepted};

use crate::trouble::Trouble;
use refusal::Verdict;
use std::fmt;

fn meaning(number: u8) -> &'static str {
    match number {
        1 => "t is not 1 to 4096",
        2 => "c is not 2 to 256",
        3 => "the length of a sub-window is not 1 to 2^53",
        4 => {
            "rows or cols: cols is a power of two from 2 to 65536, and rows x log2(cols) is 1 to 128"
        }
        5 => "the random state is 0",
        6 => "the grid does not have rows x cols x depth bytes",
        7 => { "the columns are not one for each row, each below cols; or no such row or column" }
        8 => "this call is for the other kind of clock",
        9 => "more sub-windows crossed than there were",
        10 => "merge: rows, cols, t or c differ",
        11 => "merge: the clocks differ in kind, length or epoch",
        12 => "merge: the sketches are not at the same sub-window n",
        13 => "the given fraction is not 0 to 1",
        14 => { "an unsound cell: its zoom is above max_zoom, or its shutter not below c^zoom" }
        15 => "divisor 0",
        16 => "the store does not have its exact length",
        17 => "a block of the store is damaged or out of its place",
        18 => { "the store's form or clock kind is unknown, or a byte that must be 0 is not" }
        19 => "more than 64 codes",
        20 => "the list lent is shorter than the number of codes",
        _ => "a number that no document has",
    }
}

// `refused NUMBER`, the index beside 14, and what the number means.
#[derive(Clone, Copy)]
pub(crate) struct Told(pub(crate) Verdict);

impl fmt::Display for Told {
    fn fmt<W: fmt::Write>(&self, f: &mut fmt::Formatter<W>) -> fmt::Result {
        let number = self.0.number();
        let meaning = meaning(number);
        match self.0 {
            Verdict::Unsound(index) => write!(f, "refused {number} index={index} {meaning}"),
            Verdict::Accepted | Verdict::Refused(_) => write!(f, "refused {number} {meaning}"),
        }
    }
}

// Lets an accepted call go on.
pub fn accepted<'a>(verdict: Verdict) -> Result<(), Trouble<'a>>
    ensures { IsOk result ↔ IsTrue (is_accepted verdict) }
{
    if verdict.accepted() {
        return Ok(());
    }
    Err(Trouble::Refused(verdict))
}
