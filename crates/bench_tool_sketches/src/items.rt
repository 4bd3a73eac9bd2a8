// The calls that count: items, and time.
use crate::line::{Line, ROWS};
use crate::slots::Kept;
use crate::trouble::Trouble;
use crate::usage::Command;
use crate::verdicts::Told;
use refusal::Verdict;
use sketch::{MicroCm, SketchAnswer};
use std::io;

// A run of the same call.
#[derive(Clone, Copy)]
struct Run {
    // The sketch after the last call.
    sketch: MicroCm,
    // The verdict that ended it, if a call was refused.
    refused: Option<Verdict>,
    // The draws of all calls made, and the units that they lost.
    draws: u64,
    lost: u64,
    made: u64,
}

// The call as often as asked, or until it is refused.
fn repeated<F: FnMut(MicroCm, &mut [u8]) -> SketchAnswer>(
    sketch: MicroCm,
    grid: &mut [u8],
    times: u64,
    mut call: F,
) -> Run
    requires { F.IsAlwaysCallable call }
{
    // Written into its slot once, behind the loop: what each turn writes there the next one has to read back.
    let mut sketch = sketch;
    let mut draws = 0u64;
    let mut lost = 0u64;
    for made in 0..times {
        let answer = call(sketch, &mut grid[..]);
        sketch = answer.sketch;
        if !answer.verdict.accepted() {
            return Run {
                sketch,
                refused: Some(answer.verdict),
                draws,
                lost,
                made,
            };
        }
        draws = draws.wrapping_add(answer.draws);
        lost = lost.wrapping_add(answer.lost);
    }
    Run {
        sketch,
        refused: None,
        draws,
        lost,
        made: times,
    }
}

pub fn tell_counted(rt: &impl Print, sketch: MicroCm, draws: u64, lost: u64) -> io::Result<()> {
    let now = clock_calls::n(sketch.clock);
    println!(rt; "ok n={} draws={draws} lost={lost}", now.n)
}

fn tell(rt: &impl Print, run: Run, times: u64) -> io::Result<()> {
    let Some(verdict) = run.refused else {
        return tell_counted(rt, run.sketch, run.draws, run.lost);
    };
    print!(rt; "{}", Told(verdict))?;
    if times > 1 {
        print!(rt; "; calls made before it: {}", run.made)?;
        if run.lost > 0 {
            print!(rt; ", units that they lost: {}", run.lost)?;
        }
    }
    println!(rt)
}

// Makes the calls, and tells what came of them.
fn count<F: FnMut(MicroCm, &mut [u8]) -> SketchAnswer>(
    rt: &impl Print,
    kept: Kept<'_>,
    times: u64,
    call: F,
) -> io::Result<()>
    requires { F.IsAlwaysCallable call }
{
    let Kept { slot, grid } = kept;
    let run = repeated(slot.sketch, grid, times, call);
    slot.sketch = run.sketch;
    tell(rt, run, times)
}

// An item as often as asked. `update` and `updates` go through one closure: the core's call has one caller here, and so is
// compiled into the loop.
fn items(rt: &impl Print, kept: Kept<'_>, times: u64, key: &[u32]) -> io::Result<()> {
    count(
        rt,
        kept,
        times,
        |sketch, grid| sketch_counting::update(sketch, key, grid),
    )
}

pub fn update<'l>(rt: &impl Print, line: Line<'l>, kept: Kept<'_>) -> Result<(), Trouble<'l>> {
    let mut room = [0; ROWS];
    let key = line
        .key(2, &mut room)
        .ok_or(Trouble::Usage(Command::Update))?;
    items(rt, kept, 1, key)?;
    Ok(())
}

pub fn updates<'l>(rt: &impl Print, line: Line<'l>, kept: Kept<'_>) -> Result<(), Trouble<'l>> {
    let usage = Trouble::Usage(Command::Updates);
    let times = line.at_most(2, 1000000).ok_or(usage)?;
    // No call would judge the key, and an `ok` would say that one did.
    if times == 0 {
        return Err(usage);
    }
    let mut room = [0; ROWS];
    let key = line.key(3, &mut room).ok_or(usage)?;
    items(rt, kept, times, key)?;
    Ok(())
}

pub fn update_at<'l>(rt: &impl Print, line: Line<'l>, kept: Kept<'_>) -> Result<(), Trouble<'l>> {
    let usage = Trouble::Usage(Command::UpdateAt);
    let time = line.number(2).ok_or(usage)?;
    let mut room = [0; ROWS];
    let key = line.key(3, &mut room).ok_or(usage)?;
    count(rt, kept, 1, |sketch, grid| {
        sketch_counting::update_at(sketch, key, time, grid)
    })?;
    Ok(())
}

pub fn advance<'l>(rt: &impl Print, line: Line<'l>, kept: Kept<'_>) -> Result<(), Trouble<'l>> {
    let time = line.number(2).ok_or(Trouble::Usage(Command::Advance))?;
    count(rt, kept, 1, |sketch, grid| {
        sketch_counting::advance_to(sketch, time, grid)
    })?;
    Ok(())
}
