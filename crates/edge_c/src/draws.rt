// The exports of edge::draws: the draws by themselves.
ghost use Rattle.std.specs.Prelude.{◌≡◌};
ghost use Rattle.rounding.specs.Draws.{seeded};
ghost use Rattle.edge_values.specs.Edge.{drawn, divided};
ghost use Rattle.edge.specs.Calls.{drawn_from, divided_by};

#[unsafe(no_mangle)]
pub extern "C" fn microscope_rounding_new(seed: u64) -> u64
    ensures { result ≡ seeded seed }
{
    edge::draws::microscope_rounding_new(seed)
}

#[unsafe(no_mangle)]
pub extern "C" fn microscope_next_u64(state: &mut u64, value: &mut u64) -> u64
    ensures { drawn result state.new value.new ≡ drawn_from state.old }
{
    edge::draws::microscope_next_u64(state, value)
}

#[unsafe(no_mangle)]
pub extern "C" fn microscope_unbiased_div_u64(
    value: u64,
    divisor: u64,
    state: &mut u64,
    quotient: &mut u64,
    change: &mut [u64; 3],
) -> u64
    ensures { divided result state.new quotient.new change.new
        ≡ divided_by value divisor state.old }
{
    edge::draws::microscope_unbiased_div_u64(value, divisor, state, quotient, change)
}
