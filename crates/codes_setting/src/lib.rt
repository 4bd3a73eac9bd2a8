// Document 02, T-01: a list of codes to watch is set.
#![tactic(auto)]

mod judge;

ghost use Rattle.std.specs.Prelude.{◌≡◌, length};
ghost use Rattle.codes.specs.Refusals.{set_outcome, set_call};

use codes::{Watch, WatchAnswer};
use sketch::MicroCm;

// A loop, and no `copy_from_slice`, as `store_bytes::bytes::copy` is one, and for its reason.
fn copy<T: Copy>(kept: &mut [T], given: &[T])
    requires { length given.now ≡ length kept.old }
    ensures { kept.new ≡ given.now }
{
    for (i, one) in kept.iter_mut().enumerate() {
        *one = given[i];
    }
}

// The codes to watch from now on, in place of those before: their columns one code behind another, one a row, and a limit
// for each. They count as below their limits until the first asking. A refused list leaves all as it was.
pub fn set_codes(
    sketch: MicroCm,
    watch: Watch,
    columns: &[u32],
    limits: &[u64],
    kept_columns: &mut [u32; 8192],
    kept_limits: &mut [u64; 64],
) -> WatchAnswer
    ensures { set_outcome result kept_columns.new kept_limits.new
        ≡ set_call sketch watch columns.now limits.now kept_columns.old kept_limits.old }
{
    let count = limits.len();
    let verdict = judge::setting(sketch, columns, count);
    if !verdict.accepted() {
        return WatchAnswer { verdict, watch };
    }
    copy(&mut kept_columns[..columns.len()], columns);
    copy(&mut kept_limits[..count], limits);
    WatchAnswer {
        verdict,
        watch: Watch {
            count,
            rows: sketch.rows,
            reached: 0,
        },
    }
}
