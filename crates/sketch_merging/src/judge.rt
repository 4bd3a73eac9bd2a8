// Document 01, "Turning a call back": the verdict of a merge, lowest number first. Nothing is written here.
ghost use Rattle.std.specs.Prelude.{◌≡◌};
ghost use Rattle.refusal.specs.declared.Verdict.TheVariants.{Accepted};
ghost use Rattle.clock.specs.Workers.{GoodLength};
ghost use Rattle.sketch.specs.Refusals.{lower_of, same_shape, merge_verdict, refuse_pair};

use refusal::Verdict;
use sketch::MicroCm;

// Of two verdicts the one that turns the call back, and by the lower number if both do.
fn lower(first: Verdict, second: Verdict) -> Verdict
    ensures { result ≡ lower_of first second }
{
    match (first.accepted(), second.accepted()) {
        (true, _) => second,
        (false, true) => first,
        (false, false) => {
            if first.number() <= second.number() {
                first
            } else {
                second
            }
        }
    }
}

fn same_shape(sketch: MicroCm, other: MicroCm) -> bool
    ensures { result ≡ same_shape sketch other }
{
    let params = sketch.params;
    let others = other.params;
    sketch.rows == other.rows
        && sketch.cols == other.cols
        && params.t == others.t
        && params.c == others.c
}

// 10 to 12.
fn pair(sketch: MicroCm, other: MicroCm) -> Verdict
    requires { GoodLength sketch.clock × GoodLength other.clock }
    ensures { result ≡ refuse_pair sketch other Accepted }
{
    if !same_shape(sketch, other) {
        return Verdict::Refused(10);
    }
    let clock = sketch.clock;
    let others = other.clock;
    if !clock_steps::same_frame(clock, others) {
        return Verdict::Refused(11);
    }
    if clock_steps::worker::sub_window(clock) != clock_steps::worker::sub_window(others) {
        return Verdict::Refused(12);
    }
    Verdict::Accepted
}

// The receiving grid is searched first.
pub fn merge(sketch: MicroCm, grid: &[u8], other: MicroCm, other_grid: &[u8]) -> Verdict
    ensures { result ≡ merge_verdict sketch grid.now other other_grid.now }
{
    let settings = lower(
        sketch_judging::judge::sketch(sketch, grid),
        sketch_judging::judge::sketch(other, other_grid),
    );
    if !settings.accepted() {
        return settings;
    }
    let paired = pair(sketch, other);
    if !paired.accepted() {
        return paired;
    }
    let received = sketch_judging::judge::all_cells(sketch, grid);
    if !received.accepted() {
        return received;
    }
    sketch_judging::judge::all_cells(other, other_grid)
}
