// The draws by themselves, for teaching and test: document 01, "Draws".
ghost use Rattle.std.specs.Prelude.{◌≡◌};
ghost use Rattle.rounding.specs.Draws.{seeded};
ghost use Rattle.edge_values.specs.Edge.{drawn, divided};
ghost use Rattle.edge.specs.Calls.{drawn_from, divided_by};

use rounding::Rounding;

// The random state of a seed, never 0.
#[unsafe(no_mangle)]
pub extern "C" fn microscope_rounding_new(seed: u64) -> u64
    ensures { result ≡ seeded seed }
{
    let rounding = Rounding::new(seed);
    rounding.state
}

// One draw.
#[unsafe(no_mangle)]
pub extern "C" fn microscope_next_u64(state: &mut u64, value: &mut u64) -> u64
    ensures { drawn result state.new value.new ≡ drawn_from state.old }
{
    let rounding = Rounding { state: *state };
    let answer = rounding.next_u64();
    edge_answers::drew(state, value, answer)
}

// value / divisor, the remainder rounded up with the probability that it has of the divisor.
#[unsafe(no_mangle)]
pub extern "C" fn microscope_unbiased_div_u64(
    value: u64,
    divisor: u64,
    state: &mut u64,
    quotient: &mut u64,
    change: &mut [u64; 3],
) -> u64
    ensures { divided result state.new quotient.new change.new
        ≡ divided_by value divisor state.old }
{
    let rounding = Rounding { state: *state };
    let answer = rounding.unbiased_div_u64(value, divisor);
    edge_answers::divided(state, quotient, change, answer)
}
