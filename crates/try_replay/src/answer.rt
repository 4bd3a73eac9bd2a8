// What our calls give, as the numbers that stand in the records.
use program_text::{fields, floats};
use std::fmt;
use std::fmt::Display;

// What comes of a kind that the format does not have: no call is refused by this number.
pub const NO_SUCH_KIND: u8 = 255;

// Of calls that make up one record, the first refusal: document 01's number, and 0 if all were accepted.
pub fn first(refusals: &[u8]) -> u8 {
    refusals
        .iter()
        .copied()
        .find(|number| *number != 0)
        .unwrap_or_default()
}

// The bits of an f64. Every NaN goes by the same.
#[derive(Clone, Copy, PartialEq, Eq)]
pub struct Bits(u64);

impl Bits {
    pub fn of(x: f64) -> Bits {
        Bits(floats::bits(x))
    }

    pub fn at(record: &[u8], at: usize) -> Bits {
        Bits::of(floats::of_bits(fields::u64_at(record, at)))
    }
}

impl Display for Bits {
    fn fmt<W: fmt::Write>(&self, f: &mut fmt::Formatter<W>) -> fmt::Result {
        let bits = self.0;
        write!(f, "{bits:016x}")
    }
}
