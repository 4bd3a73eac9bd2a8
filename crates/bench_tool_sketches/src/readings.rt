// What a sketch says of a key.
use crate::line::{Line, ROWS};
use crate::pictures::Mark;
use crate::slots::View;
use crate::trouble::Trouble;
use crate::usage::Command;
use crate::{pictures, verdicts};
use program_text::floats;
use sketch::{MicroCm, ReadingAnswer};
use std::io;

// The four f64 by their bits, then the figures for people.
fn tell_reading(rt: &impl Print, answer: ReadingAnswer) -> io::Result<()> {
    let reading = answer.reading;
    let over = floats::bits(reading.over);
    let under = floats::bits(reading.under);
    let linear = floats::bits(reading.linear);
    let fraction = floats::bits(reading.fraction);
    print!(rt;
        "ok over={over:016x} under={under:016x} linear={linear:016x} fraction={fraction:016x}"
    )?;
    let linear = floats::in_places(reading.linear);
    let (whole, thousandths) = (linear.whole, linear.thousandths);
    let (over, under) = (answer.over, answer.under);
    print!(rt; " over_items={over} under_items={under} linear_items={whole}.{thousandths:03}")
}

// How many sub-windows Over covers: the k of the band.
fn covered(sketch: MicroCm) -> u64 {
    let now = clock_calls::n(sketch.clock);
    now.n.min(sketch.params.t as u64).saturating_add(1)
}

fn tell_zooms(rt: &impl Print, view: View<'_>, key: &[u32]) -> io::Result<()> {
    print!(rt; " zooms=")?;
    for (row, col) in key.iter().enumerate() {
        let zoom = match pictures::mark_at(view, row, *col as usize) {
            Mark::Zoom(zoom) => zoom,
            Mark::Unsound => 99,
        };
        if row > 0 {
            print!(rt; ",")?;
        }
        print!(rt; "{zoom}")?;
    }
    println!(rt)
}

pub fn read<'l>(rt: &impl Print, line: Line<'l>, view: View<'_>) -> Result<(), Trouble<'l>> {
    let View { sketch, grid } = view;
    let mut room = [0; ROWS];
    let key = line.key(2, &mut room).ok_or(Trouble::Usage(Command::Read))?;
    let answer = if line.count() == 4 {
        let bits = line.bits(3).ok_or(Trouble::Usage(Command::Read))?;
        sketch_reading::estimate_with(sketch, key, floats::of_bits(bits), grid)
    } else {
        sketch_reading::estimate(sketch, key, grid)
    };
    verdicts::accepted(answer.verdict)?;
    tell_reading(rt, answer)?;
    let mean = sketch_reading::mean(sketch, key, grid);
    print!(rt; " mean={} k={}", mean.mean, covered(sketch))?;
    tell_zooms(rt, view, key)?;
    Ok(())
}

pub fn mean<'l>(rt: &impl Print, line: Line<'l>, view: View<'_>) -> Result<(), Trouble<'l>> {
    let mut room = [0; ROWS];
    let key = line.key(2, &mut room).ok_or(Trouble::Usage(Command::Mean))?;
    let answer = sketch_reading::mean(view.sketch, key, view.grid);
    verdicts::accepted(answer.verdict)?;
    println!(rt; "ok mean={}", answer.mean)?;
    Ok(())
}
