// An f64 by its bits, in and out, and to three places for people.
ghost use Rattle.std.specs.Prelude.{◌≡◌, ◌<◌, ◌^◌, from_bits, to_bits};
ghost use Rattle.std.specs.Float.Ieee.{nan_bits};
ghost use Rattle.std.specs.Float.{binary64};

use std::fmt;
use std::fmt::Display;

// The bits by which every NaN goes here.
const NAN: u64 = 0x7FF8_0000_0000_0000;

const SIGN: u64 = 0x8000_0000_0000_0000;

const HIDDEN: u64 = 0x0010_0000_0000_0000;

// A whole number and the thousandths beside it.
#[derive(Clone, Copy)]
pub struct Places {
    pub whole: u64,
    pub thousandths: u64,
}

impl Places {
    fn of(thousandths: u64) -> Places {
        Places {
            whole: thousandths / 1000,
            thousandths: thousandths % 1000,
        }
    }
}

impl Display for Places {
    fn fmt<W: fmt::Write>(&self, f: &mut fmt::Formatter<W>) -> fmt::Result {
        write!(f, "{}.{:03}", self.whole, self.thousandths)
    }
}

// The bits of an f64. Which NaN a call gives is open, so all go by the same bits; of the rest no two do.
pub fn bits(x: f64) -> u64
    ensures { result ≡ to_bits binary64 x }
{
    if x.is_nan() {
        return NAN;
    }
    x.to_bits()
}

// The f64 of any bits. Which NaN it is is open in Rattle, so a NaN's bits give one that is computed.
pub fn of_bits(bits: u64) -> f64
    ensures { result ≡ from_bits binary64 bits }
{
    if is_nan(bits) {
        return 0.0 / 0.0;
    }
    f64::from_bits(bits)
}

// The exponent's field is all ones, and the digits' is not 0.
fn is_nan(bits: u64) -> bool
    ensures { result ≡ nan_bits binary64 bits }
{
    bits % SIGN / HIDDEN == 2047 && bits % HIDDEN != 0
}

// The library's `{:.3}` would round a half to the even thousandth, and this rounds it up.
//
// digits / 2^shift, to the nearest thousandth. No bit is lost, as the digits are below 2^53.
fn divided(digits: u64, shift: u64) -> Places
    requires { digits < 2 ^ 53 }
{
    if shift > 63 {
        return Places::of(0);
    }
    let half = (1 << shift) >> 1;
    Places::of((digits * 1000 + half) >> shift)
}

// A figure is never negative and below 2^54, so its last digit is worth 2 at most.
pub fn in_places(x: f64) -> Places {
    let pattern = bits(x);
    let exponent = pattern % SIGN / HIDDEN;
    if exponent < 1 {
        return Places::of(0);
    }
    let digits = pattern % HIDDEN + HIDDEN;
    if exponent > 1075 {
        return Places::of(digits * 2000);
    }
    divided(digits, 1075 - exponent)
}
