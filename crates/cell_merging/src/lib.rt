// Document 01, "Merge" (cell.rs): what two cells counted becomes the count of one.
#![tactic(auto)]

pub mod merge;

ghost use Rattle.std.specs.Prelude.{◌≡◌};
ghost use Rattle.cell.specs.Refusals.{cell_outcome, merge_call};

use cell::{CellAnswer, MicroParams};
use rounding::Rounding;

// Adds the counts of src to those of dst, as they are at sub-window n. src is only read.
pub fn merge_cells(
    dst: &mut [u8],
    src: &[u8],
    params: MicroParams,
    n: u64,
    rounding: Rounding,
) -> CellAnswer
    ensures { cell_outcome dst.new result ≡ merge_call params n dst.old src.now rounding.state }
{
    let verdict = merge::judge(&dst[..], src, params, rounding.state);
    merge::merge_judged(dst, src, params, n, verdict, rounding)
}
