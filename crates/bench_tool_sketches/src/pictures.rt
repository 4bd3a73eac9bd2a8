// A cell as bars and a grid as a map of zooms. A pixel is never shown without its unit: it is no count.
use crate::line::Line;
use crate::slots::View;
use crate::trouble::Trouble;
use crate::usage::Command;
use crate::verdicts;
use crate::verdicts::Told;
use cell::MicroParams;
use program_text::floats;
use program_text::print::HexBytes;
use refusal::Verdict;
use std::fmt::Display;
use std::{fmt, io};

// A sound cell, its zoom and its shutter, at the sub-window n.
#[derive(Clone, Copy)]
struct Picture<'a> {
    bytes: &'a [u8],
    params: MicroParams,
    n: u64,
    zoom: u8,
    shutter: u32,
}

// The pixel that a sub-window uses.
fn slot_of(t: usize, n: u64) -> usize {
    (n % (t as u64).saturating_add(2)) as usize
}

// The items that a full step of a pixel stands for: c^Z.
fn unit(c: u32, zoom: u8) -> u64 {
    u64::from(c).saturating_pow(u32::from(zoom))
}

impl<'a> Picture<'a> {
    fn new(bytes: &'a [u8], params: MicroParams, n: u64) -> Picture<'a> {
        let zoom = cell_reading::zoom(bytes, params);
        let shutter = cell_reading::shutter(bytes, params);
        Picture {
            bytes,
            params,
            n,
            zoom: zoom.zoom,
            shutter: shutter.shutter,
        }
    }

    fn pixel(self, slot: usize) -> u8 {
        self.bytes.get(slot).copied().unwrap_or(0)
    }

    // The slot of the newest pixel.
    fn newest(self) -> usize {
        slot_of(self.params.t, self.n)
    }

    // The slot behind it.
    fn stale(self) -> usize {
        slot_of(self.params.t, (self.newest() as u64).saturating_add(1))
    }

    fn unit(self) -> u64 {
        unit(self.params.c, self.zoom)
    }

    // Whether it cannot zoom out.
    fn at_highest_zoom(self) -> bool {
        let highest = cell_reading::max_zoom(self.params.c);
        self.zoom >= highest.zoom
    }
}

// A mark for each 8 of a pixel, and one for what is left of it.
fn bar(rt: &impl Print, pixel: u8) -> io::Result<()> {
    let marks = usize::from(pixel.div_ceil(8));
    println!(rt; " |{:#<marks$}", "")
}

fn sub_window(rt: &impl Print, cell: Picture<'_>, n: u64) -> io::Result<()> {
    let pixel = cell.pixel(slot_of(cell.params.t, n));
    let answer = cell_reading::scaled_pixel(cell.bytes, cell.params, n);
    let items = floats::in_places(answer.items);
    let unit = cell.unit();
    print!(rt; "  n={n} pixel {pixel} x {unit} = {} items", items.whole)?;
    bar(rt, pixel)
}

// The covered sub-windows, newest first: n back to n - t, where not negative.
fn sub_windows(rt: &impl Print, cell: Picture<'_>) -> io::Result<()> {
    let oldest = cell.n.saturating_sub(cell.params.t as u64);
    for n in (oldest..=cell.n).rev() {
        sub_window(rt, cell, n)?;
    }
    Ok(())
}

// How far the zoom falls when clearing is done, with this largest pixel (document 02, T-11).
fn falls(rt: &impl Print, most: u8, cell: Picture<'_>) -> io::Result<()> {
    let zoom = cell.zoom;
    let k = bench_tool_levels::levels(cell.params.c, most, zoom);
    if k == 0 {
        return println!(rt; " zooms in by 0, stays at zoom {zoom} (largest pixel {most})");
    }
    let times = unit(cell.params.c, k);
    let grown = u64::from(most).saturating_mul(times);
    println!(rt;
        " zooms in by {k}, to zoom {} (largest pixel {most} x {times} = {grown})",
        zoom - k
    )
}

// The shutter gives the newest pixel 1 more. A full pixel takes none: below the highest zoom the cell zooms out, and
// what the other pixels become is drawn.
fn falls_from_one_more(rt: &impl Print, most: u8, cell: Picture<'_>) -> io::Result<()> {
    let newest = cell.pixel(cell.newest());
    if newest < 255 {
        return falls(rt, most.max(newest + 1), cell);
    }
    if cell.at_highest_zoom() {
        print!(rt; " the newest pixel is full, its unit is lost;")?;
        return falls(rt, most, cell);
    }
    println!(rt;
        " the newest pixel is full: zooms out to {} first, and in again by 1 at most",
        u64::from(cell.zoom) + 1
    )
}

// What the next crossing, by 1, makes of the zoom: the shutter is closed, to 0 or to 1, and the stale slot cleared.
fn next_crossing(rt: &impl Print, cell: Picture<'_>) -> io::Result<()> {
    if cell.n == u64::MAX {
        return println!(rt; "  next crossing: none, n is the last");
    }
    let stale = cell.stale();
    let count = cell.params.t.saturating_add(2);
    let pixels = cell.bytes.get(..count).unwrap_or(&[]);
    let most = bench_tool_levels::largest_left(pixels, stale);
    print!(rt; "  next crossing, by 1: clears slot {stale}")?;
    if cell.shutter == 0 {
        print!(rt; ";")?;
        return falls(rt, most, cell);
    }
    print!(rt; "\n    shutter closed to 0:")?;
    falls(rt, most, cell)?;
    print!(rt; "    shutter closed to 1:")?;
    falls_from_one_more(rt, most, cell)
}

// A pixel that can take no unit more, as the cell cannot zoom out (document 02, T-04).
fn tell_full(rt: &impl Print, cell: Picture<'_>) -> io::Result<()> {
    if cell.pixel(cell.newest()) == 255 && cell.at_highest_zoom() {
        println!(rt;
            "  full at max_zoom: the next unit for n={} is lost",
            cell.n
        )?;
    }
    Ok(())
}

fn draw(rt: &impl Print, cell: Picture<'_>) -> io::Result<()> {
    let Picture {
        n,
        zoom,
        shutter,
        ..
    } = cell;
    let unit = cell.unit();
    println!(rt;
        "ok n={n} zoom={zoom} base={} unit={unit} shutter={shutter}",
        cell.params.c
    )?;
    sub_windows(rt, cell)?;
    println!(rt; "  shutter: {shutter} of {unit} items towards the next step of the newest pixel")?;
    tell_full(rt, cell)?;
    let stale = cell.stale();
    println!(rt;
        "  stale: slot {stale}, pixel {}, in no figure",
        cell.pixel(stale)
    )?;
    next_crossing(rt, cell)
}

// The call on one cell knows no other index than 0; here it is told as the calls on the grid tell it.
fn tell_unsound(rt: &impl Print, index: usize, cell: &[u8]) -> io::Result<()> {
    let told = Told(Verdict::Unsound(index));
    println!(rt; "{told}; its bytes: {}", HexBytes(cell))
}

pub fn one_cell<'l>(rt: &impl Print, line: Line<'l>, view: View<'_>) -> Result<(), Trouble<'l>> {
    let View { sketch, grid } = view;
    let row = line.number(2).ok_or(Trouble::Usage(Command::Cell))? as usize;
    let col = line.number(3).ok_or(Trouble::Usage(Command::Cell))? as usize;
    verdicts::accepted(sketch_queries::bucket_check(sketch, row, col, grid))?;
    let bytes = sketch_queries::bucket_slice(sketch, row, col, grid);
    let verdict = cell_reading::judge(bytes, sketch.params);
    if verdict.accepted() {
        let now = clock_calls::n(sketch.clock);
        draw(rt, Picture::new(bytes, sketch.params, now.n))?;
    } else {
        let index = row.saturating_mul(sketch.cols).saturating_add(col);
        tell_unsound(rt, index, bytes)?;
    }
    Ok(())
}

// What a cell's place on the map shows; of several cells the highest is shown.
#[derive(Clone, Copy)]
pub enum Mark {
    Zoom(u8),
    Unsound,
}

impl Mark {
    fn glyph(self) -> char {
        match self {
            Mark::Zoom(0) => '.',
            Mark::Zoom(zoom) => char::from_digit(u32::from(zoom), 36).unwrap_or('!'),
            Mark::Unsound => '!',
        }
    }
}

// Always inlined, as `highest` is: the loop over a row's cells has no call then.
#[inline(always)]
pub fn mark_at(view: View<'_>, row: usize, col: usize) -> Mark {
    let View { sketch, grid } = view;
    let cell = sketch_queries::bucket_slice(sketch, row, col, grid);
    let answer = cell_reading::zoom(cell, sketch.params);
    if answer.verdict.accepted() {
        return Mark::Zoom(answer.zoom);
    }
    Mark::Unsound
}

// The highest mark of the columns of a group. No zoom is above an unsound cell.
#[inline(always)]
fn highest(view: View<'_>, row: usize, from: usize, group: usize) -> Mark {
    let mut highest = 0;
    for col in from..from.saturating_add(group) {
        match mark_at(view, row, col) {
            Mark::Zoom(zoom) => highest = highest.max(zoom),
            Mark::Unsound => return Mark::Unsound,
        }
    }
    Mark::Zoom(highest)
}

// A row of the map has at most 64 marks.
#[derive(Clone, Copy)]
struct Row<'a> {
    view: View<'a>,
    row: usize,
    group: usize,
}

impl Display for Row<'_> {
    fn fmt<W: fmt::Write>(&self, f: &mut fmt::Formatter<W>) -> fmt::Result {
        let Row { view, row, group } = *self;
        write!(f, "  row {row} |")?;
        for place in 0..view.sketch.cols.min(64) {
            let mark = highest(view, row, place.saturating_mul(group), group);
            f.write_char(mark.glyph())?;
        }
        f.write_str("|")
    }
}

fn map_row(rt: &impl Print, view: View<'_>, row: usize, group: usize) -> io::Result<()> {
    println!(rt; "{}", Row { view, row, group })
}

pub fn map<'a>(rt: &impl Print, view: View<'_>) -> Result<(), Trouble<'a>> {
    let View { sketch, grid } = view;
    verdicts::accepted(sketch_queries::bucket_check(sketch, 0, 0, grid))?;
    // The columns that a mark stands for.
    let group = (sketch.cols / 64).max(1);
    let (rows, cols) = (sketch.rows, sketch.cols);
    println!(rt;
        "ok rows={rows} cols={cols} columns_a_mark={group} (highest zoom: . is 0, 1 to 9, a to v are 10 to 31, ! an unsound cell)"
    )?;
    for row in 0..rows {
        map_row(rt, view, row, group)?;
    }
    Ok(())
}
