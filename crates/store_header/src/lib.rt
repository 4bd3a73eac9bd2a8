// Document 01, "Audit and block store": the header of a store, the sketch in block 0.
#![tactic(auto)]

pub mod fields;

ghost use Rattle.std.specs.Prelude.{◌≡◌};
ghost use Rattle.store_header.specs.Refusals.{header_number};

use sketch::MicroCm;

// What the header's block says: a sketch, or the number by which it is refused. An enum of its own, opened by let .. else, and no
// Result: document 01's list of forms asks for it.
#[derive(Clone, Copy)]
pub enum Header {
    Sketch(MicroCm),
    Refused(u8),
}

impl Header {
    // Document 01's number, and 0 for a sketch.
    pub fn number(self) -> u8
        ensures { result ≡ header_number self }
    {
        match self {
            Header::Sketch(_) => 0,
            Header::Refused(number) => number,
        }
    }
}
