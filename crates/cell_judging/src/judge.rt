// What is tested before anything is done, in the order of document 01's numbers.
ghost use Rattle.std.specs.Prelude.{◌≡◌, ◌&&◌, ◌^◌, ◌≤◌, leb, ltb, length};
ghost use Rattle.refusal.specs.declared.Verdict.TheVariants.{Accepted};
ghost use Rattle.cell.specs.Cell.{max_zoom, sound_of};
ghost use Rattle.cell.specs.Refusals.{params_verdict, max_zoom_verdict};
ghost use Rattle.cell.specs.Workers.{Fit, HeldOf, before_cell};

use crate::power;
use cell::{Held, MicroParams};
use cell_layout::fields;
use refusal::Verdict;

// The zoom base: 2.
pub fn base(c: u32) -> Verdict
    ensures { result ≡ max_zoom_verdict c }
{
    if !(2..=256).contains(&c) {
        return Verdict::Refused(2);
    }
    Verdict::Accepted
}

// The settings: 1, 2.
pub fn settings(params: MicroParams) -> Verdict
    ensures { result ≡ params_verdict params }
{
    if !(1..=4096).contains(&params.t) {
        return Verdict::Refused(1);
    }
    base(params.c)
}

// All that is told before a cell is read, `size` bytes of it: 1, 2, 5, 6.
pub fn before_cell(params: MicroParams, state: u64, size: usize) -> Verdict
    ensures { result ≡ before_cell params state size Accepted }
{
    let verdict = settings(params);
    if !verdict.accepted() {
        return verdict;
    }
    if state == 0 {
        return Verdict::Refused(5);
    }
    if size != fields::depth(params.t) {
        return Verdict::Refused(6);
    }
    Verdict::Accepted
}

// Whether a cell with this zoom and this shutter is sound.
pub fn fields_sound(zoom: u8, shutter: u64, c: u32) -> bool
    requires { (2 ≤ c) × (c ≤ 256) }
    ensures { result ≡ (leb zoom (max_zoom c) && ltb shutter (c ^ zoom)) }
{
    shutter < power::unit_or_zero(c, zoom)
}

// Whether a cell is sound.
pub fn sound(cell: &[u8], t: usize, c: u32) -> bool
    requires { Fit t c (length cell.now) }
    ensures { result ≡ sound_of t c cell.now }
{
    let zoom = fields::zoom(cell, t);
    let shutter = fields::shutter(cell, t);
    fields_sound(zoom, u64::from(shutter), c)
}

// A cell judged: 1, 2, 5, 6, 14. What was read for it goes along, so that no call reads it again.
pub fn held(cell: &[u8], params: MicroParams, state: u64) -> Held
    ensures { HeldOf params cell.now state result }
{
    let verdict = before_cell(params, state, cell.len());
    if !verdict.accepted() {
        return Held {
            verdict,
            shutter: 0,
            unit: 0,
        };
    }
    let t = params.t;
    let shutter = fields::shutter(cell, t);
    let zoom = fields::zoom(cell, t);
    let unit = power::unit_or_zero(params.c, zoom);
    if u64::from(shutter) < unit {
        return Held {
            verdict,
            shutter,
            unit,
        };
    }
    Held {
        verdict: Verdict::Unsound(0),
        shutter,
        unit,
    }
}
