// A wrong call on a sketch, in full.
use crate::clocks::Fields;
use crate::report;
use crate::sketches::call::{Answer, Call, Figures, Reading};
use crate::sketches::record::Record;
use program_text::print::Joined;
use sketch::MicroCm;
use std::io;

// Behind the call's name: its slot, the sketch as it was before it, and its arguments.
pub fn call(rt: &impl Print, record: Record<'_>, sketch: MicroCm) -> io::Result<()> {
    let slot = record.slot;
    let rows = sketch.rows;
    let cols = sketch.cols;
    let t = sketch.params.t;
    let c = sketch.params.c;
    let clock = Fields::from(sketch.clock);
    let state = sketch.rounding.state;
    print!(rt;
        ", slot {slot}, rows {rows}, cols {cols}, t {t}, c {c}{clock}, state or seed {state}"
    )?;
    arguments(rt, record.call)?;
    key(rt, record.key)
}

fn arguments(rt: &impl Print, call: Call) -> io::Result<()> {
    match call {
        Call::Set { moment, state } => {
            print!(rt; ", seen or now to be {moment}, state to be {state}")
        }
        Call::Update { times } => print!(rt; ", times {times}"),
        Call::UpdateAt { timestamp, times } => {
            print!(rt; ", timestamp {timestamp}, times {times}")
        }
        Call::AdvanceTo { timestamp } => print!(rt; ", timestamp {timestamp}"),
        Call::EstimateWith { fraction } => print!(rt; ", bits of the fraction {fraction}"),
        _ => Ok(()),
    }
}

fn key(rt: &impl Print, key: &[u32]) -> io::Result<()> {
    if key.is_empty() {
        return Ok(());
    }
    let columns = Joined {
        columns: key,
        between: " ",
    };
    print!(rt; "\n  key: {columns}")
}

pub fn answers(rt: &impl Print, expected: Answer, came: Answer) -> io::Result<()> {
    report::compare(rt, "refused by", expected.refused, came.refused)?;
    report::compare(rt, "n", expected.n, came.n)?;
    report::compare(rt, "seen or now", expected.moment, came.moment)?;
    report::compare(rt, "state", expected.state, came.state)?;
    report::compare(rt, "draws", expected.draws, came.draws)?;
    report::compare(rt, "digest of the grid", expected.digest, came.digest)?;
    report::compare(
        rt,
        "settings kept",
        u8::from(expected.kept),
        u8::from(came.kept),
    )?;
    match (expected.reading, came.reading) {
        (Reading::Figures(expected), Reading::Figures(came)) => figures(rt, expected, came),
        (Reading::MergedIn(expected), Reading::MergedIn(came)) => {
            report::compare(rt, "digest of the grid merged in", expected, came)
        }
        (Reading::MaxZoom(expected), Reading::MaxZoom(came)) => {
            report::compare(rt, "max_zoom", expected, came)
        }
        // Both are of the record's kind.
        _ => Ok(()),
    }
}

fn figures(rt: &impl Print, expected: Figures, came: Figures) -> io::Result<()> {
    report::compare(rt, "Over", expected.over, came.over)?;
    report::compare(rt, "Under", expected.under, came.under)?;
    report::compare(rt, "Linear", expected.linear, came.linear)?;
    report::compare(rt, "fraction", expected.fraction, came.fraction)?;
    report::compare(
        rt,
        "Over from a whole number",
        expected.whole_over,
        came.whole_over,
    )?;
    report::compare(
        rt,
        "Under from a whole number",
        expected.whole_under,
        came.whole_under,
    )
}

// Of grids that are too long to be recorded nothing is shown.
pub fn grids(
    rt: &impl Print,
    record: Record<'_>,
    before: &[u8],
    other: &[u8],
    came: &[u8],
) -> io::Result<()> {
    report::bytes(rt, "grid before", before)?;
    if let Call::Merge = record.call {
        report::bytes(rt, "grid merged in", small(other))?;
    }
    report::bytes(rt, "grid expected", record.shown)?;
    report::bytes(rt, "grid that came", small(came))?;
    println!(rt)
}

fn small(grid: &[u8]) -> &[u8] {
    if grid.len() > 200 {
        return &[];
    }
    grid
}
