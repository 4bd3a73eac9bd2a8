// Document 01, "Crossing" (`enter_sub_window`), in its stages: close the shutter, clear, zoom in. Callers have judged
// the cell.
ghost use Rattle.std.specs.Prelude.{◌≡◌, true, ◌+◌, ◌-◌, ◌*◌, ◌%◌, ◌<◌, ◌≤◌, length};
ghost use Rattle.laws.specs.Steps.{still};
ghost use Rattle.cell.specs.Cell.{pixels_of, pixels_in, depth_of, slot_of, zoom_of, sound_of};
ghost use Rattle.cell.specs.Crossing.{close_of, clear_of, emptied, inside_of, ceiling_of, all_at_most, times_each, zoomed_in, zoom_in_of, cross_of};
ghost use Rattle.cell.specs.Workers.{Fit, Judged, step_of};

use cell::Drawn;
use cell_judging::{answer, power};
use cell_layout::fields;

// Moves a cell into sub-window n, `crossed` sub-windows on. The caller knows the pixel of the sub-window that ends, so
// that many cells share one division.
pub fn enter_sub_window(
    cell: &mut [u8],
    t: usize,
    c: u32,
    n: u64,
    crossed: u64,
    slot: usize,
    state: u64,
) -> Drawn
    requires { Fit t c (length cell.old) × (sound_of t c cell.old ≡ true) × (crossed ≤ n) × (slot ≡ slot_of t (n - crossed)) }
    ensures result_after { step_of cell.new result ≡ cross_of t c n crossed cell.old state }
    ensures draws_bound { result.draws ≤ t + 3 }
{
    let zoom = fields::zoom(&cell[..], t);
    if zoom == 0 && 0 < crossed && crossed < (fields::pixels(t) as u64) {
        return enter_flat(cell, t, c, n, crossed, slot, state);
    }
    let shutter = fields::shutter(&cell[..], t);
    let unit = power::unit(c, zoom);
    enter_from(cell, t, c, n, crossed, slot, shutter, unit, state)
}

// Most cells have zoom 0: then the shutter is empty and there is nothing to round and nowhere to zoom in.
fn enter_flat(
    cell: &mut [u8],
    t: usize,
    c: u32,
    n: u64,
    crossed: u64,
    slot: usize,
    state: u64,
) -> Drawn
    requires fit { Fit t c (length cell.old) × (sound_of t c cell.old ≡ true) × (zoom_of t cell.old ≡ 0) }
    requires crossed_nonzero { (0 < crossed) × (crossed < pixels_of t) × (crossed ≤ n) × (slot ≡ slot_of t (n - crossed)) }
    ensures result_after { step_of cell.new result ≡ cross_of t c n crossed cell.old state }
    ensures draws_bound { result.draws ≤ t + 3 }
{
    clear(cell, t, slot, n - crossed, crossed);
    answer::still(state)
}

// The same where the caller has read the shutter and the unit already.
pub fn enter_judged(
    cell: &mut [u8],
    t: usize,
    c: u32,
    n: u64,
    crossed: u64,
    shutter: u32,
    unit: u64,
    state: u64,
) -> Drawn
    requires { Judged t c cell.old shutter unit × (crossed < pixels_of t → crossed ≤ n) }
    ensures result_after { step_of cell.new result ≡ cross_of t c n crossed cell.old state }
    ensures draws_bound { result.draws ≤ t + 3 }
{
    // A far jump may lead from before sub-window 0: it asks for no pixel, and is told that of 0.
    let slot = fields::slot(t, n.saturating_sub(crossed));
    enter_from(cell, t, c, n, crossed, slot, shutter, unit, state)
}

// The same from the pixel of the sub-window that ends.
fn enter_from(
    cell: &mut [u8],
    t: usize,
    c: u32,
    n: u64,
    crossed: u64,
    slot: usize,
    shutter: u32,
    unit: u64,
    state: u64,
) -> Drawn
    requires judged { Judged t c cell.old shutter unit × (slot ≡ slot_of t (n - crossed)) }
    requires crossed_le_n { crossed < pixels_of t → crossed ≤ n }
    ensures result_after { step_of cell.new result ≡ cross_of t c n crossed cell.old state }
    ensures draws_bound { result.draws ≤ t + 3 }
{
    if crossed == 0 {
        return answer::still(state);
    }
    let drawn = enter_unzoomed(cell, t, c, n, crossed, slot, shutter, unit, state);
    zoom_in(cell, t, c);
    drawn
}

// All but the zooming in.
fn enter_unzoomed(
    cell: &mut [u8],
    t: usize,
    c: u32,
    n: u64,
    crossed: u64,
    slot: usize,
    shutter: u32,
    unit: u64,
    state: u64,
) -> Drawn
    requires judged { Judged t c cell.old shutter unit × (slot ≡ slot_of t (n - crossed)) }
    requires crossed_le_n { crossed < pixels_of t → crossed ≤ n }
    ensures result_after { step_of cell.new result ≡ inside_of t c n crossed cell.old state }
    ensures draws_bound { result.draws ≤ t + 3 }
{
    if crossed >= (fields::pixels(t) as u64) {
        return empty(cell, t, state);
    }
    // What the shutter holds belongs to the sub-window that ends: in the new pixel it would count for a whole window.
    let ended = n - crossed;
    let drawn = close(cell, t, c, slot, shutter, unit, state);
    clear(cell, t, slot, ended, crossed);
    drawn
}

// Closes the shutter into the pixel of the sub-window that ends. Nothing else in a crossing can lose a unit: what is cleared
// has left the window.
fn close(
    cell: &mut [u8],
    t: usize,
    c: u32,
    slot: usize,
    shutter: u32,
    unit: u64,
    state: u64,
) -> Drawn
    requires { Judged t c cell.old shutter unit × (slot < pixels_of t) }
    ensures result_after { step_of cell.new result ≡ close_of t c slot cell.old state }
    ensures draws_bound { result.draws ≤ t + 3 }
{
    fields::set_shutter(cell, t, 0);
    // Most cells have nothing to round: they are spared the division.
    if shutter == 0 {
        return answer::still(state);
    }
    let rounded = rounding::worker::divide(u64::from(shutter), unit, state);
    if rounded.value == 0 {
        return Drawn {
            state: rounded.state,
            draws: rounded.draws,
            lost: 0,
        };
    }
    let credited = cell_insertion::worker::credit_pixel(cell, t, c, slot, rounded.state);
    Drawn {
        state: credited.state,
        draws: rounded.draws + credited.draws,
        lost: credited.lost,
    }
}

// The pixel behind this one: they stand in a ring. A remainder would be a division for each pixel that is cleared.
fn next_slot(t: usize, slot: usize) -> usize
    requires { (t ≤ 4096) × (slot < pixels_of t) }
    ensures { (result ≡ (slot + 1) % pixels_of t) × (result < pixels_of t) }
{
    let next = slot + 1;
    if next < fields::pixels(t) { next } else { 0 }
}

// Clears the pixels of the `count` sub-windows after `ended`, whose pixel is known: the ring is walked without a division.
fn clear(cell: &mut [u8], t: usize, slot: usize, ended: u64, count: u64)
    requires { (t ≤ 4096) × (pixels_of t ≤ length cell.old) × (slot ≡ slot_of t ended) }
    ensures { cell.new ≡ clear_of t count (ended + 1) cell.old }
{
    // Nearly every crossing is by one sub-window: it is spared the loop.
    if count == 1 {
        let begun = next_slot(t, slot);
        cell[begun] = 0;
        return;
    }
    let mut at = slot;
    for _ in 0..count {
        at = next_slot(t, at);
        cell[at] = 0;
    }
}

// The far jump: nothing of the window is left, and nothing is rounded.
fn empty(cell: &mut [u8], t: usize, state: u64) -> Drawn
    requires { (t ≤ 4096) × (length cell.old ≡ depth_of t) }
    ensures { step_of cell.new result ≡ still (emptied t cell.old) state }
{
    let pixels = fields::pixels(t);
    fields::zero_all(&mut cell[..pixels]);
    fields::set_shutter(cell, t, 0);
    answer::still(state)
}

// Zooms in as far as the pixels allow.
fn zoom_in(cell: &mut [u8], t: usize, c: u32)
    requires { Fit t c (length cell.old) }
    ensures { cell.new ≡ zoom_in_of t c cell.old }
{
    for zoom in (0..fields::zoom(&cell[..], t)).rev() {
        if !has_room(&cell[..], t, c) {
            return;
        }
        zoom_in_to(cell, t, c, zoom);
    }
}

// Every pixel still fits a byte when it is multiplied by c: tested against 256 / c, 128 would become 256 for c = 2.
fn has_room(cell: &[u8], t: usize, c: u32) -> bool
    requires { Fit t c (length cell.now) }
    ensures { result ≡ all_at_most (ceiling_of c) (pixels_in t cell.now) }
{
    let pixels = fields::pixels(t);
    all_at_most(&cell[..pixels], 255 / c)
}

// One level in.
fn zoom_in_to(cell: &mut [u8], t: usize, c: u32, zoom: u8)
    requires { Fit t c (length cell.old) × (all_at_most (ceiling_of c) (pixels_in t cell.old) ≡ true) }
    ensures { cell.new ≡ zoomed_in t c zoom cell.old }
{
    let pixels = fields::pixels(t);
    times_each(&mut cell[..pixels], c);
    fields::set_zoom(cell, t, zoom);
}

// A loop: `iter().all(..)` was tried, and is a third slower over 4,096 pixels.
fn all_at_most(pixels: &[u8], most: u32) -> bool
    ensures { result ≡ all_at_most most pixels.now }
{
    for pixel in pixels {
        if u32::from(*pixel) > most {
            return false;
        }
    }
    true
}

fn times_each(pixels: &mut [u8], c: u32)
    requires { (2 ≤ c) × (all_at_most (ceiling_of c) pixels.old ≡ true) }
    ensures { pixels.new ≡ times_each c pixels.old }
{
    for pixel in pixels.iter_mut() {
        *pixel = (u32::from(*pixel) * c) as u8;
    }
}
