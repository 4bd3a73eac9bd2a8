// Document 01, "Merge": the sums of two cells' pixels, and the zoom at which each fits a byte. Callers have judged both cells.
ghost use Rattle.std.specs.Prelude.{◌≡◌, true, ◌*◌, ◌^◌, ◌≤◌, ◌<◌, length};
ghost use Rattle.rounding.specs.Draws.{rounded_div};
ghost use Rattle.cell.specs.Cell.{pixels_of, zoom_of, max_zoom};
ghost use Rattle.cell.specs.Insertion.{divide_each};
ghost use Rattle.cell.specs.Crossing.{all_at_most};
ghost use Rattle.cell.specs.Merge.{scale_down, add_pair, add_each, cut_each, cut_off, settle_of, with_carry, sums_of};
ghost use Rattle.cell.specs.Workers.{Fit, step_of};
ghost use Rattle.cell_merging_sums.specs.Workers.{added_of, flat_sums, settled_of};

use cell::Drawn;
use cell_judging::power;
use cell_layout::fields;
use rounding::{Divided, worker};

// Sums that fit a byte each: the zoom at which they do, what drawing for them left, and the units that were cut off.
#[derive(Clone, Copy)]
pub struct Summed {
    pub zoom: u8,
    pub state: u64,
    pub draws: u32,
    pub lost: u32,
}

// The pixels of both, with the carry of the shutters, brought to a zoom at which each fits a byte.
pub fn sum_up(
    sums: &mut [u32],
    dst: &[u8],
    src: &[u8],
    t: usize,
    c: u32,
    target: u8,
    slot: usize,
    carry: u32,
    state: u64,
) -> Summed
    requires fit { Fit t c (length dst.now) × Fit t c (length src.now) × (length sums.old ≡ pixels_of t) }
    requires dst_bound { (zoom_of t dst.now ≤ target) × (zoom_of t src.now ≤ target) × (target ≤ max_zoom c) × (slot < pixels_of t) × (carry ≤ 1) }
    ensures result_after { settled_of sums.new result ≡ sums_of t c target slot carry dst.now src.now state }
    ensures sums_after { (all_at_most 255 sums.new ≡ true) × (result.zoom ≤ max_zoom c) }
{
    let added = add_pixels(sums, dst, src, t, c, target, state);
    add_carry(sums, slot, carry);
    let settled = settle(sums, target, c, added.state);
    Summed {
        zoom: settled.zoom,
        state: settled.state,
        draws: added.draws + settled.draws,
        lost: settled.lost,
    }
}

fn add_carry(sums: &mut [u32], slot: usize, carry: u32)
    requires { (slot < length sums.old) × (all_at_most 510 sums.old ≡ true) × (carry ≤ 1) }
    ensures { (sums.new ≡ with_carry slot carry sums.old) × (all_at_most 511 sums.new ≡ true) }
{
    sums[slot] += carry;
}

// Each cell's pixels lack the levels from its own zoom up to the target.
fn add_pixels(
    sums: &mut [u32],
    dst: &[u8],
    src: &[u8],
    t: usize,
    c: u32,
    target: u8,
    state: u64,
) -> Drawn
    requires fit { Fit t c (length dst.now) × Fit t c (length src.now) × (length sums.old ≡ pixels_of t) }
    requires dst_bound { (zoom_of t dst.now ≤ target) × (zoom_of t src.now ≤ target) }
    ensures result_after { step_of sums.new result ≡ added_of t c target dst.now src.now state }
    ensures sums_after { (all_at_most 510 sums.new ≡ true) × (result.draws ≤ 4098 * 510) }
{
    let down = target - fields::zoom(dst, t);
    let other = target - fields::zoom(src, t);
    let pixels = fields::pixels(t);
    if down == 0 && other == 0 {
        add_flat(sums, &dst[..pixels], &src[..pixels]);
        return Drawn {
            state,
            draws: 0,
            lost: 0,
        };
    }
    add_each(sums, &dst[..pixels], &src[..pixels], down, other, c, state)
}

// Cells of one zoom lack no level, so nothing is rounded: the compiler adds many pixels at once.
fn add_flat(sums: &mut [u32], dst: &[u8], src: &[u8])
    requires { (length src.now ≡ length dst.now) × (length sums.old ≡ length dst.now) }
    ensures { (sums.new ≡ flat_sums dst.now src.now) × (all_at_most 510 sums.new ≡ true) }
{
    for (i, sum) in sums.iter_mut().enumerate() {
        *sum = u32::from(dst[i]) + u32::from(src[i]);
    }
}

fn add_each(
    sums: &mut [u32],
    dst: &[u8],
    src: &[u8],
    down: u8,
    other: u8,
    c: u32,
    state: u64,
) -> Drawn
    requires { (2 ≤ c) × (length dst.now ≤ 4098) × (length src.now ≡ length dst.now) × (length sums.old ≡ length dst.now) }
    ensures result_after { step_of sums.new result ≡ add_each c down other dst.now src.now state }
    ensures sums_after { (all_at_most 510 sums.new ≡ true) × (result.draws ≤ 4098 * 510) }
{
    let mut after = state;
    let mut draws: u32 = 0;
    for (i, sum) in sums.iter_mut().enumerate() {
        let pair = add_pair(dst[i], src[i], down, other, c, after);
        *sum = pair.value as u32;
        after = pair.state;
        draws += pair.draws;
    }
    Drawn {
        state: after,
        draws,
        lost: 0,
    }
}

fn add_pair(x: u8, y: u8, down: u8, other: u8, c: u32, state: u64) -> Divided
    requires { 2 ≤ c }
    ensures value { result ≡ add_pair c down other x y state }
    ensures value_bound { result.value ≤ 510 }
{
    let a = scale_down(u64::from(x), down, c, state);
    let b = scale_down(u64::from(y), other, c, a.state);
    Divided {
        value: a.value + b.value,
        state: b.state,
        draws: a.draws + b.draws,
    }
}

// Divided by c once for each level: one division by c^levels would round once, with another draw.
fn scale_down(value: u64, levels: u8, c: u32, state: u64) -> Divided
    requires { 2 ≤ c }
    ensures { result ≡ scale_down c levels value state }
{
    let mut x = value;
    let mut after = state;
    let mut draws: u32 = 0;
    for _ in 0..levels {
        let divided = worker::divide(x, u64::from(c), after);
        x = divided.value;
        after = divided.state;
        draws += divided.draws;
    }
    Divided {
        value: x,
        state: after,
        draws,
    }
}

// Raises the zoom until every sum fits. One raise need not do: 511 halved may round up to 256. At max_zoom what does not
// fit is cut.
fn settle(sums: &mut [u32], zoom: u8, c: u32, state: u64) -> Summed
    requires { (2 ≤ c) × (c ≤ 256) × (zoom ≤ max_zoom c) × (length sums.old ≤ 4098) × (all_at_most 511 sums.old ≡ true) }
    ensures result_after { settled_of sums.new result ≡ settle_of c zoom sums.old state }
    ensures sums_after { (all_at_most 255 sums.new ≡ true) × (result.draws ≤ 31 * 4098) × (result.zoom ≤ max_zoom c) }
{
    let top = power::max_zoom(c);
    let mut after = state;
    let mut draws: u32 = 0;
    for target in zoom..top {
        if all_fit(&sums[..]) {
            return Summed {
                zoom: target,
                state: after,
                draws,
                lost: 0,
            };
        }
        let divided = divide_each(sums, c, after);
        after = divided.state;
        draws += divided.draws;
    }
    let lost = cut_each(sums);
    Summed {
        zoom: top,
        state: after,
        draws,
        lost,
    }
}

fn all_fit(sums: &[u32]) -> bool
    ensures { result ≡ all_at_most 255 sums.now }
{
    sums.iter().all(|sum| *sum <= 255)
}

fn divide_each(sums: &mut [u32], c: u32, state: u64) -> Drawn
    requires { (2 ≤ c) × (length sums.old ≤ 4098) }
    ensures { step_of sums.new result ≡ divide_each c sums.old state }
{
    let mut after = state;
    let mut draws: u32 = 0;
    for sum in sums.iter_mut() {
        let divided = divide_sum(*sum, c, after);
        *sum = divided.value as u32;
        after = divided.state;
        draws += divided.draws;
    }
    Drawn {
        state: after,
        draws,
        lost: 0,
    }
}

fn divide_sum(sum: u32, c: u32, state: u64) -> Divided
    requires { 2 ≤ c }
    ensures value { result ≡ rounded_div sum c state }
    ensures value_bound { result.value < 2 ^ 32 }
{
    worker::divide(u64::from(sum), u64::from(c), state)
}

// Cuts all to 255, and adds up what stood above it.
fn cut_each(sums: &mut [u32]) -> u32
    requires { (length sums.old ≤ 4098) × (all_at_most 511 sums.old ≡ true) }
    ensures { (sums.new ≡ cut_each sums.old) × (result ≡ cut_off sums.old) }
{
    let mut lost: u32 = 0;
    for sum in sums.iter_mut() {
        lost += sum.saturating_sub(255);
        *sum = (*sum).min(255);
    }
    lost
}
