// Document 01, "Turning a call back": the verdict that every call gives beside its results.
#![tactic(auto)]

ghost use Rattle.std.specs.Prelude.{◌≡◌};
ghost use Rattle.refusal.specs.Refusals.{number_of, index_of, is_accepted};

#[derive(Clone, Copy)]
pub enum Verdict {
    // Done as asked.
    Accepted,
    // Turned back by this number of document 01's table; nothing was changed.
    Refused(u8),
    // Turned back by 14: the cell of this index (row * cols + column) is unsound; nothing was changed.
    Unsound(usize),
}

impl Verdict {
    pub fn accepted(self) -> bool
        ensures { result ≡ is_accepted self }
    {
        match self {
            Verdict::Accepted => true,
            Verdict::Refused(_) => false,
            Verdict::Unsound(_) => false,
        }
    }

    // Document 01's number, and 0 for a call that was accepted.
    pub fn number(self) -> u8
        ensures { result ≡ number_of self }
    {
        match self {
            Verdict::Accepted => 0,
            Verdict::Refused(number) => number,
            Verdict::Unsound(_) => 14,
        }
    }

    // The index that goes with 14, and 0 beside every other number.
    pub fn index(self) -> usize
        ensures { result ≡ index_of self }
    {
        match self {
            Verdict::Accepted => 0,
            Verdict::Refused(_) => 0,
            Verdict::Unsound(index) => index,
        }
    }
}
