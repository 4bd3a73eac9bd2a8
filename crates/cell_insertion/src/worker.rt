// Document 01, "Insertion": an item is recorded. Callers have judged the cell.
ghost use Rattle.std.specs.Prelude.{◌≡◌, true, ◌+◌, ◌≤◌, ◌<◌, length, set};
ghost use Rattle.rounding.specs.Draws.{rounded_div};
ghost use Rattle.cell.specs.Cell.{pixels_of, pixel_of, slot_of, sound_of};
ghost use Rattle.cell.specs.Insertion.{divide_each, credit_of, insert_of};
ghost use Rattle.cell.specs.Refusals.{cell_outcome, insert_call};
ghost use Rattle.cell.specs.Workers.{Fit, Judged, HeldOf, step_of};
ghost use Rattle.cell_insertion.specs.Workers.{counted};

use cell::{CellAnswer, Drawn, Held, MicroParams};
use cell_judging::{answer, power};
use cell_layout::fields;
use rounding::{Divided, Rounding};

// The credited pixel divided by c with rounding. It holds 255 and takes its unit first: it counts as 256, which no byte
// holds. To divide 255 and add 1 after would credit up to a whole unit too much at every zoom-out.
fn divide_credited(c: u32, state: u64) -> Divided
    requires { 2 ≤ c }
    ensures { result ≡ rounded_div 256 c state }
{
    rounding::worker::divide(256, u64::from(c), state)
}

// A pixel divided by c with rounding.
fn divide_pixel(pixel: u8, credited: bool, c: u32, state: u64) -> Divided
    requires { 2 ≤ c }
    ensures value { result ≡ rounded_div (counted credited pixel) c state }
    ensures value_bound { (result.value < 256) × (result.draws ≤ 1) }
{
    if credited {
        return divide_credited(c, state);
    }
    rounding::worker::divide(u64::from(pixel), u64::from(c), state)
}

// Every pixel in index order.
fn divide_pixels(pixels: &mut [u8], c: u32, slot: usize, state: u64) -> Drawn
    requires { (2 ≤ c) × (length pixels.old ≤ 4098) }
    ensures result_after { step_of pixels.new result ≡ divide_each c (set pixels.old slot 256) state }
    ensures draws_in_bounds { result.draws ≤ length pixels.old }
{
    let mut after = state;
    let mut draws: u32 = 0;
    for (i, pixel) in pixels.iter_mut().enumerate() {
        let divided = divide_pixel(*pixel, i == slot, c, after);
        *pixel = divided.value as u8;
        after = divided.state;
        draws += divided.draws;
    }
    // A raise rounds, and loses nothing.
    Drawn {
        state: after,
        draws,
        lost: 0,
    }
}

// A unit for a pixel that has no room for it: the cell zooms out, and at max_zoom the unit is dropped, the one place where an
// item or a crossing loses one. Called from two places, it is kept out of the way of the many items that only add 1.
fn zoom_out(cell: &mut [u8], t: usize, c: u32, slot: usize, state: u64) -> Drawn
    requires { Fit t c (length cell.old) × (slot < pixels_of t) × (255 ≤ pixel_of cell.old slot) }
    ensures result_after { step_of cell.new result ≡ credit_of t c slot cell.old state }
    ensures draws_bound { result.draws ≤ t + 2 }
{
    let zoom = fields::zoom(&cell[..], t);
    if zoom < power::max_zoom(c) {
        fields::set_zoom(cell, t, zoom + 1);
        let pixels = fields::pixels(t);
        return divide_pixels(&mut cell[..pixels], c, slot, state);
    }
    Drawn {
        lost: 1,
        ..answer::still(state)
    }
}

// A unit for the pixel.
pub fn credit_pixel(cell: &mut [u8], t: usize, c: u32, slot: usize, state: u64) -> Drawn
    requires { Fit t c (length cell.old) × (slot < pixels_of t) }
    ensures result_after { step_of cell.new result ≡ credit_of t c slot cell.old state }
    ensures draws_bound { result.draws ≤ t + 2 }
{
    let pixel = cell[slot];
    if pixel < 255 {
        cell[slot] = pixel + 1;
        return answer::still(state);
    }
    zoom_out(cell, t, c, slot, state)
}

// An item of sub-window n, for a cell whose shutter and unit the caller has read already. The caller knows the pixel of
// n too, so that many cells share one division.
pub fn insert_judged(
    cell: &mut [u8],
    t: usize,
    c: u32,
    n: u64,
    slot: usize,
    shutter: u32,
    unit: u64,
    state: u64,
) -> Drawn
    requires { Judged t c cell.old shutter unit × (slot ≡ slot_of t n) }
    ensures result_after { step_of cell.new result ≡ insert_of t c n cell.old state }
    ensures draws_bound { result.draws ≤ t + 2 }
{
    if u64::from(shutter) + 1 < unit {
        fields::set_shutter(cell, t, shutter + 1);
        return answer::still(state);
    }
    fields::set_shutter(cell, t, 0);
    credit_pixel(cell, t, c, slot, state)
}

// An item of sub-window n. Most cells have zoom 0: then the shutter is empty, and an item is a unit for the pixel, which is
// written out here so that it is all that such an item runs through.
pub fn insert(cell: &mut [u8], t: usize, c: u32, n: u64, slot: usize, state: u64) -> Drawn
    requires { Fit t c (length cell.old) × (sound_of t c cell.old ≡ true) × (slot ≡ slot_of t n) }
    ensures result_after { step_of cell.new result ≡ insert_of t c n cell.old state }
    ensures draws_bound { result.draws ≤ t + 2 }
{
    let zoom = fields::zoom(&cell[..], t);
    if zoom == 0 {
        let pixel = cell[slot];
        if pixel < 255 {
            cell[slot] = pixel + 1;
            return answer::still(state);
        }
        return zoom_out(cell, t, c, slot, state);
    }
    let shutter = fields::shutter(&cell[..], t);
    let unit = power::unit(c, zoom);
    insert_judged(cell, t, c, n, slot, shutter, unit, state)
}

// The same for a cell that was judged, and may have been turned back.
pub fn insert_held(
    cell: &mut [u8],
    params: MicroParams,
    n: u64,
    held: Held,
    rounding: Rounding,
) -> CellAnswer
    requires { HeldOf params cell.old rounding.state held }
    ensures { cell_outcome cell.new result ≡ insert_call params n cell.old rounding.state }
{
    let verdict = held.verdict;
    if !verdict.accepted() {
        return answer::turned_back(verdict, rounding);
    }
    let slot = fields::slot(params.t, n);
    let drawn = insert_judged(
        cell,
        params.t,
        params.c,
        n,
        slot,
        held.shutter,
        held.unit,
        rounding.state,
    );
    answer::done(drawn)
}
