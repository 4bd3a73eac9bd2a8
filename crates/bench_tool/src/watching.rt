// A list of codes to watch is set.
use bench_tool_sketches::kept_lists::Lists;
use bench_tool_sketches::line::Line;
use bench_tool_sketches::slots::{Kept, Slot};
use bench_tool_sketches::trouble::Trouble;
use bench_tool_sketches::usage::Command;
use bench_tool_sketches::verdicts;

// The two lists have room for any line: a column takes two bytes of it, as a comma or a colon follows, and a code four.
pub fn watch<'l>(
    rt: &impl Print,
    line: Line<'l>,
    kept: Kept<'_>,
    lists: &mut Lists,
) -> Result<(), Trouble<'l>> {
    let mut columns = [0u32; 32768];
    let mut limits = [0u64; 16384];
    let codes = line
        .codes(&mut columns, &mut limits)
        .ok_or(Trouble::Usage(Command::Watch))?;
    let slot = kept.slot;
    let Slot { sketch, watch, .. } = *slot;
    let answer = codes_setting::set_codes(
        sketch,
        watch,
        codes.columns,
        codes.limits,
        &mut lists.columns,
        &mut lists.limits,
    );
    verdicts::accepted(answer.verdict)?;
    slot.watch = answer.watch;
    println!(rt; "ok codes={}", answer.watch.count)?;
    Ok(())
}
