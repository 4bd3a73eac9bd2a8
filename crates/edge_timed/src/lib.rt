// The edge to C and Rust, an item on a clock of time. Its export, crate edge_timed_c, is compiled by itself: the work of counting an
// item, which it shares with the item on a count clock, is compiled into a call only where one call has it, and else costs each of them
// a third more.
#![tactic(auto)]

ghost use Rattle.std.specs.Prelude.{◌≡◌};
ghost use Rattle.edge_values.specs.Edge.{changed};
ghost use Rattle.edge.specs.Calls.{updated_at};

// One item on a clock of time.
#[unsafe(no_mangle)]
pub extern "C" fn microscope_update_at(
    sketch: &mut [u64; 9],
    key: &[u32],
    timestamp: u64,
    grid: &mut [u8],
    change: &mut [u64; 3],
) -> u64
    ensures { changed result sketch.new grid.new change.new
        ≡ updated_at sketch.old key.now timestamp grid.old }
{
    let core = edge_values::sketch(sketch);
    let answer = sketch_counting::update_at(core, &key[..], timestamp, grid);
    edge_answers::changed(sketch, change, answer)
}
