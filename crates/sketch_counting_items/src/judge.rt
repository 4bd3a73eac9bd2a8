// Document 01, "Turning a call back", for the calls that count: the verdict of each, lowest number first. A call that crosses
// would write every cell, so it judges every cell; one that stays in its sub-window judges those that it writes.
ghost use Rattle.std.specs.Prelude.{◌≡◌};
ghost use Rattle.refusal.specs.Refusals.{refuse};
ghost use Rattle.sketch.specs.Refusals.{item_verdict, move_verdict};
ghost use Rattle.sketch_counting_items.specs.Workers.{crosses_to};

use clock::SubWindowClock;
use refusal::Verdict;
use sketch::MicroCm;

// An item for a sketch that takes the clock `after` by it; `number` is told between 7 and 14 where that
// cause `holds`: as one verdict the two would go through memory.
pub fn item(
    sketch: MicroCm,
    key: &[u32],
    grid: &[u8],
    after: SubWindowClock,
    crosses: bool,
    number: u8,
    holds: bool,
) -> Verdict
    requires { crosses ≡ crosses_to sketch after }
    ensures { result ≡ item_verdict sketch key.now grid.now after (refuse number holds) }
{
    let keyed = sketch_judging::judge::keyed(sketch, &key[..], &grid[..]);
    if !keyed.accepted() {
        return keyed;
    }
    if holds {
        return Verdict::Refused(number);
    }
    if crosses {
        return sketch_judging::judge::all_cells(sketch, &grid[..]);
    }
    sketch_judging::judge::key_cells(sketch, &key[..], &grid[..])
}

// No item: nothing is written within the sub-window.
pub fn movement(
    sketch: MicroCm,
    grid: &[u8],
    after: SubWindowClock,
    crosses: bool,
    number: u8,
    holds: bool,
) -> Verdict
    requires { crosses ≡ crosses_to sketch after }
    ensures { result ≡ move_verdict sketch grid.now after (refuse number holds) }
{
    let verdict = sketch_judging::judge::sketch(sketch, &grid[..]);
    if !verdict.accepted() {
        return verdict;
    }
    if holds {
        return Verdict::Refused(number);
    }
    if !crosses {
        return verdict;
    }
    sketch_judging::judge::all_cells(sketch, &grid[..])
}
