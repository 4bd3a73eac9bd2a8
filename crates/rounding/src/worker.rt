// The work behind the calls, for the crates above: what a caller has judged already is not judged again.
ghost use Rattle.std.specs.Prelude.{◌≡◌, ◌*◌, ◌%◌, ◌^◌, ◌<◌};
ghost use Rattle.rounding.specs.Draws.{next_state, draw_of, rounded_div};

use crate::{Divided, Draw};

// The product of a and b modulo 2^64, by halves of 32 bits: the carry past 64 bits is dropped. No `u64::wrapping_mul`: document 01's
// list of forms asks for a helper of the program's own.
fn wrapping_mul(a: u64, b: u64) -> u64
    ensures { result ≡ (a * b) % 2 ^ 64 }
{
    let a1 = a >> 32;
    let a0 = a % 0x1_0000_0000;
    let b1 = b >> 32;
    let b0 = b % 0x1_0000_0000;
    let low = a0 * b0;
    let cross = (a1 * b0) % 0x1_0000_0000 + (a0 * b1) % 0x1_0000_0000 + (low >> 32);
    (cross << 32) + low % 0x1_0000_0000
}

// The state after one draw.
fn next_state(state: u64) -> u64
    ensures { result ≡ next_state state }
{
    let a = state ^ (state >> 12);
    let b = a ^ (a << 25);
    b ^ (b >> 27)
}

pub fn draw(state: u64) -> Draw
    ensures { result ≡ draw_of state }
{
    let x = next_state(state);
    Draw {
        state: x,
        value: wrapping_mul(x, 0x2545_F491_4F6C_DD1D),
    }
}

// value / divisor, rounded. 2 is the usual base: known to the compiler, it is a shift.
pub fn divide(value: u64, divisor: u64, state: u64) -> Divided
    requires { 0 < divisor }
    ensures { result ≡ rounded_div value divisor state }
{
    if divisor == 2 {
        return divide_by(value, 2, state);
    }
    divide_by(value, divisor, state)
}

fn divide_by(value: u64, divisor: u64, state: u64) -> Divided
    requires { 0 < divisor }
    ensures { result ≡ rounded_div value divisor state }
{
    let quotient = value / divisor;
    let remainder = value % divisor;
    if remainder == 0 {
        return Divided {
            value: quotient,
            state,
            draws: 0,
        };
    }
    let drawn = draw(state);
    if drawn.value % divisor < remainder {
        return Divided {
            value: quotient + 1,
            state: drawn.state,
            draws: 1,
        };
    }
    Divided {
        value: quotient,
        state: drawn.state,
        draws: 1,
    }
}
