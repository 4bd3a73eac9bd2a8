// Document 01, "Insertion" (cell.rs): an item is recorded in a cell.
#![tactic(auto)]

pub mod worker;

ghost use Rattle.std.specs.Prelude.{◌≡◌};
ghost use Rattle.cell.specs.Refusals.{cell_outcome, insert_call};

use cell::{CellAnswer, MicroParams};
use cell_judging::judge;
use rounding::Rounding;

// Records an item of sub-window n.
pub fn insert(cell: &mut [u8], params: MicroParams, n: u64, rounding: Rounding) -> CellAnswer
    ensures { cell_outcome cell.new result ≡ insert_call params n cell.old rounding.state }
{
    let held = judge::held(&cell[..], params, rounding.state);
    worker::insert_held(cell, params, n, held, rounding)
}
