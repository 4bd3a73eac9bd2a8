// The edge to C and Rust: every public call on a sketch, a store, watched codes and a cell.
//
// What goes over the edge is numbers, slices (an address and a length) and arrays of a fixed length (an address): no struct goes by
// value, so that any machine's C can call. A sketch is nine words that the caller keeps. A call returns document 01's number, 0 if
// it was accepted. What it changes a refused call leaves; what it tells is written either way. include/microscope.h names the words.
// C links the exports of crates edge_c and edge_timed_c, one for each function here and in crate edge_timed, with its clauses.
#![tactic(auto)]

pub mod cells;
pub mod draws;
pub mod sketches;
pub mod stores;
pub mod watched;

ghost use Rattle.std.specs.Prelude.{◌≡◌};
ghost use Rattle.edge.specs.Calls.{version};

// The version of these calls: MICROSCOPE_VERSION of the header that goes with this library.
#[unsafe(no_mangle)]
pub extern "C" fn microscope_version() -> u64
    ensures { result ≡ version }
{
    20002
}
