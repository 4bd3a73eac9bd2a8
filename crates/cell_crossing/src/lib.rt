// Document 01, "Crossing" (cell.rs): a cell moves on into a later sub-window.
#![tactic(auto)]

mod worker;

ghost use Rattle.std.specs.Prelude.{◌≡◌};
ghost use Rattle.cell.specs.Refusals.{cell_outcome, cross_call};

use cell::{CellAnswer, MicroParams};
use rounding::Rounding;

// Moves a cell into sub-window new_n, `crossed` sub-windows on.
pub fn enter_sub_window(
    cell: &mut [u8],
    params: MicroParams,
    new_n: u64,
    crossed: u64,
    rounding: Rounding,
) -> CellAnswer
    ensures { cell_outcome cell.new result ≡ cross_call params new_n crossed cell.old rounding.state }
{
    let held = worker::held(&cell[..], params, new_n, crossed, rounding.state);
    worker::enter_held(cell, params, new_n, crossed, held, rounding)
}
