// Document 02, T-01: which of the watched codes have newly reached their limit.
#![tactic(auto)]

mod judge;
mod pass;

ghost use Rattle.std.specs.Prelude.{◌≡◌};
ghost use Rattle.codes.specs.Refusals.{ask_outcome, ask_call};

use codes::{AskAnswer, Watch};
use sketch::MicroCm;

// Lists every code whose Over figure is at or above its limit and was below at the asking before: their indices, a byte
// each, ascending. A list's first asking comes after "below". No cell is changed; a refused asking leaves all as it was.
pub fn ask(
    sketch: MicroCm,
    watch: Watch,
    kept_columns: &[u32; 8192],
    kept_limits: &[u64; 64],
    grid: &[u8],
    list: &mut [u8],
) -> AskAnswer
    ensures { ask_outcome result list.new
        ≡ ask_call sketch watch kept_columns.now kept_limits.now grid.now list.old }
{
    let verdict = judge::asking(sketch, watch, kept_columns, grid, list.len());
    if !verdict.accepted() {
        return AskAnswer {
            verdict,
            listed: 0,
            watch,
        };
    }
    let count = watch.count;
    let before = watch.reached;
    let found = pass::list_new(sketch, count, kept_columns, kept_limits, before, grid, list);
    AskAnswer {
        verdict,
        listed: found.listed,
        watch: Watch {
            count,
            rows: watch.rows,
            reached: found.reached,
        },
    }
}
