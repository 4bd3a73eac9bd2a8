// The answer of a call that counts an item. A refused one drew nothing, and its sketch is as it came.
ghost use Rattle.std.specs.Prelude.{◌≡◌};
ghost use Rattle.sketch_counting.specs.Workers.{counted_answer};

use clock::SubWindowClock;
use sketch::{MicroCm, SketchAnswer};
use sketch_counting_items::worker::Counted;
use sketch_judging::answer;

// An item that was judged, and counted where it was accepted.
pub fn counted(sketch: MicroCm, clock: SubWindowClock, counted: Counted) -> SketchAnswer
    ensures { result ≡ counted_answer sketch clock counted }
{
    let verdict = counted.verdict;
    if !verdict.accepted() {
        return answer::undrawn(verdict, sketch);
    }
    answer::went_on(sketch, clock, counted.passed)
}
