// Document 01, "Merge" (`merge_cells`): the counts of src are added to dst's.
ghost use Rattle.std.specs.Prelude.{◌≡◌, true, ◌+◌, ◌^◌, ◌≤◌, max, length};
ghost use Rattle.cell.specs.Cell.{pixels_of, depth_of, slot_of, zoom_of, shutter_of, with_pixels, with_zoom, with_shutter};
ghost use Rattle.cell.specs.Crossing.{all_at_most};
ghost use Rattle.cell.specs.Merge.{merge_of};
ghost use Rattle.cell.specs.Refusals.{cell_outcome, merge_call};
ghost use Rattle.cell.specs.Workers.{step_of};
ghost use Rattle.cell_merging.specs.Workers.{Pair, PairJudged, Carried};

use cell::{CellAnswer, Drawn, MicroParams};
use cell_judging::{answer, judge, power};
use cell_layout::fields;
use refusal::Verdict;
use rounding::Rounding;

// What two shutters make: whole units of the target for the pixel of n, and what is left in the shutter.
#[derive(Clone, Copy)]
struct Carry {
    units: u32,
    rest: u32,
}

// Two cells judged for a merge: 1, 2, 5, 6, 14.
pub fn judge(dst: &[u8], src: &[u8], params: MicroParams, state: u64) -> Verdict
    ensures { PairJudged params dst.now src.now state result }
{
    let verdict = judge::before_cell(params, state, dst.len());
    if !verdict.accepted() {
        return verdict;
    }
    let t = params.t;
    let c = params.c;
    if src.len() != fields::depth(t) {
        return Verdict::Refused(6);
    }
    if !judge::sound(dst, t, c) || !judge::sound(src, t, c) {
        return Verdict::Unsound(0);
    }
    Verdict::Accepted
}

// Merges two cells that were judged, and may have been turned back.
pub fn merge_judged(
    dst: &mut [u8],
    src: &[u8],
    params: MicroParams,
    n: u64,
    verdict: Verdict,
    rounding: Rounding,
) -> CellAnswer
    requires { PairJudged params dst.old src.now rounding.state verdict }
    ensures { cell_outcome dst.new result ≡ merge_call params n dst.old src.now rounding.state }
{
    if !verdict.accepted() {
        return answer::turned_back(verdict, rounding);
    }
    let drawn = merge_cells(dst, src, params.t, params.c, n, rounding.state);
    answer::done(drawn)
}

// Two pixels of 255 and the carry of the shutters make 511, which no byte holds: the sums are worked out in an array
// of their own. A cell has at most 4,098 pixels.
pub fn merge_cells(dst: &mut [u8], src: &[u8], t: usize, c: u32, n: u64, state: u64) -> Drawn
    requires { Pair t c dst.old src.now }
    ensures { step_of dst.new result ≡ merge_of t c n dst.old src.now state }
{
    let mut work = [0u32; 4098];
    merge_within(dst, src, &mut work, t, c, n, fields::slot(t, n), state)
}

// The same in an array that the caller lends, so that a merge of many cells makes one. The caller knows the pixel of n
// too, so that they share one division.
pub fn merge_within(
    dst: &mut [u8],
    src: &[u8],
    work: &mut [u32],
    t: usize,
    c: u32,
    n: u64,
    slot: usize,
    state: u64,
) -> Drawn
    requires pair { Pair t c dst.old src.now × (slot ≡ slot_of t n) }
    requires work_len { length work.old ≡ 4098 }
    ensures { step_of dst.new result ≡ merge_of t c n dst.old src.now state }
{
    let pixels = fields::pixels(t);
    merge_by(dst, &src[..], &mut work[..pixels], t, c, n, slot, state)
}

// The same, with a sum for each pixel.
fn merge_by(
    dst: &mut [u8],
    src: &[u8],
    sums: &mut [u32],
    t: usize,
    c: u32,
    n: u64,
    slot: usize,
    state: u64,
) -> Drawn
    requires pair { Pair t c dst.old src.now × (slot ≡ slot_of t n) }
    requires sums_len { length sums.old ≡ pixels_of t }
    ensures { step_of dst.new result ≡ merge_of t c n dst.old src.now state }
{
    let target = larger_zoom(&dst[..], &src[..], t);
    let carry = carry_of(&dst[..], &src[..], t, c, target);
    let summed = cell_merging_sums::worker::sum_up(
        sums,
        &dst[..],
        &src[..],
        t,
        c,
        target,
        slot,
        carry.units,
        state,
    );
    // The rest is below the unit of the target, and so below that of every zoom above it.
    store(dst, &sums[..], t, summed.zoom, carry.rest);
    Drawn {
        state: summed.state,
        draws: summed.draws,
        lost: summed.lost,
    }
}

fn larger_zoom(dst: &[u8], src: &[u8], t: usize) -> u8
    requires { (t ≤ 4096) × (length dst.now ≡ depth_of t) × (length src.now ≡ depth_of t) }
    ensures { result ≡ max (zoom_of t dst.now) (zoom_of t src.now) }
{
    fields::zoom(dst, t).max(fields::zoom(src, t))
}

// Each shutter is below the unit of its own zoom and so of the target: both make one unit at most, and no division is
// needed.
fn carry_of(dst: &[u8], src: &[u8], t: usize, c: u32, target: u8) -> Carry
    requires { Pair t c dst.now src.now × (target ≡ max (zoom_of t dst.now) (zoom_of t src.now)) }
    ensures { Carried (shutter_of t dst.now + shutter_of t src.now) (c ^ target) result }
{
    let unit = power::unit(c, target);
    let shutters = both_shutters(dst, src, t);
    if unit <= shutters {
        return Carry {
            units: 1,
            rest: (shutters - unit) as u32,
        };
    }
    Carry {
        units: 0,
        rest: shutters as u32,
    }
}

fn both_shutters(dst: &[u8], src: &[u8], t: usize) -> u64
    requires { (t ≤ 4096) × (length dst.now ≡ depth_of t) × (length src.now ≡ depth_of t) }
    ensures { result ≡ shutter_of t dst.now + shutter_of t src.now }
{
    u64::from(fields::shutter(dst, t)) + u64::from(fields::shutter(src, t))
}

fn store(dst: &mut [u8], sums: &[u32], t: usize, zoom: u8, shutter: u32)
    requires { (t ≤ 4096) × (length dst.old ≡ depth_of t) × (length sums.now ≡ pixels_of t) × (all_at_most 255 sums.now ≡ true) }
    ensures { dst.new ≡ with_shutter t shutter (with_zoom t zoom (with_pixels t sums.now dst.old)) }
{
    let pixels = fields::pixels(t);
    copy_each(&mut dst[..pixels], sums);
    fields::set_zoom(dst, t, zoom);
    fields::set_shutter(dst, t, shutter);
}

fn copy_each(pixels: &mut [u8], sums: &[u32])
    requires { (length sums.now ≡ length pixels.old) × (all_at_most 255 sums.now ≡ true) }
    ensures { pixels.new ≡ sums.now }
{
    for (i, pixel) in pixels.iter_mut().enumerate() {
        *pixel = sums[i] as u8;
    }
}
