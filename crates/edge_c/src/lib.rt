// What C links of crate edge: each export calls the function of its name there, in the module of its file, and states its clauses again.
// What a call does, and what its numbers are, stands at that function. A library of Rattle crates exports nothing to C, so the exports
// stand apart; tools/build_library makes libmicroscope.a of them and of crate edge_timed_c.
#![tactic(auto)]

pub mod cells;
pub mod draws;
pub mod sketches;
pub mod stores;
pub mod watched;

ghost use Rattle.std.specs.Prelude.{◌≡◌};
ghost use Rattle.edge.specs.Calls.{version};

#[unsafe(no_mangle)]
pub extern "C" fn microscope_version() -> u64
    ensures { result ≡ version }
{
    edge::microscope_version()
}
