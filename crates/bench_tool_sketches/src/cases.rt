// What sets up a bench case. It writes what no call would, and so can make a sketch unsound.
use crate::line::Line;
use crate::slots::Kept;
use crate::trouble::Trouble;
use crate::usage::Command;
use clock::SubWindowClock;
use program_text::numbers;
use rounding::Rounding;

pub fn set_clock<'l>(rt: &impl Print, line: Line<'l>, kept: Kept<'_>) -> Result<(), Trouble<'l>> {
    let value = line.number(2).ok_or(Trouble::Usage(Command::SetClock))?;
    let sketch = &mut kept.slot.sketch;
    match &mut sketch.clock {
        SubWindowClock::CountBased { seen, .. } => *seen = value,
        SubWindowClock::TimeBased { now, .. } => *now = value,
    }
    println!(rt; "ok n={}", clock_calls::n(sketch.clock).n)?;
    Ok(())
}

pub fn set_state<'l>(rt: &impl Print, line: Line<'l>, kept: Kept<'_>) -> Result<(), Trouble<'l>> {
    let state = line.number(2).ok_or(Trouble::Usage(Command::SetState))?;
    kept.slot.sketch.rounding = Rounding { state };
    println!(rt; "ok state=0x{state:016x}")?;
    Ok(())
}

pub fn set_grid<'l>(rt: &impl Print, line: Line<'l>, kept: Kept<'_>) -> Result<(), Trouble<'l>> {
    let digits = line.word(2);
    let size = kept.grid.len();
    if digits.len() % 2 != 0 || digits.len() / 2 != size || !numbers::all_hex(digits) {
        return Err(Trouble::Usage(Command::SetGrid));
    }
    numbers::fill(kept.grid, digits);
    println!(rt; "ok bytes={size}")?;
    Ok(())
}
