// The header, payload of block 0: each field where document 01 puts it, the rest 0.
ghost use Rattle.std.specs.Prelude.{◌≡◌, ◌+◌, ◌^◌, ◌<◌, ◌≤◌, length, take, drop};
ghost use Rattle.store_header.specs.Header.{kind_of, epoch_of, field_of, clock_in, sketch_in};
ghost use Rattle.clock.specs.Clock.{reading_of};
ghost use Rattle.store_header.specs.Refusals.{wrong_form, header_in};
ghost use Rattle.store_header.specs.Workers.{Put, header_of};

use crate::Header;
use cell::MicroParams;
use clock::SubWindowClock;
use rounding::Rounding;
use sketch::MicroCm;
use store_bytes::bytes;

// A count clock has no epoch; its field holds this.
const NO_EPOCH: u64 = 0;

// A number for a kind: it is document 01's, as it stands in the file.
fn kind(clock: SubWindowClock) -> u64
    ensures { result ≡ kind_of clock }
{
    match clock {
        SubWindowClock::CountBased { .. } => 0,
        SubWindowClock::TimeBased { .. } => 1,
    }
}

fn epoch(clock: SubWindowClock) -> u64
    ensures { result ≡ epoch_of clock }
{
    match clock {
        SubWindowClock::CountBased { .. } => NO_EPOCH,
        SubWindowClock::TimeBased { epoch, .. } => epoch,
    }
}

// How many items were seen, or the latest reading.
fn reading(clock: SubWindowClock) -> u64
    ensures { result ≡ reading_of clock }
{
    match clock {
        SubWindowClock::CountBased { seen, .. } => seen,
        SubWindowClock::TimeBased { now, .. } => now,
    }
}

// The next field, behind those that stand before `at`.
fn put_field(out: &mut [u8], at: usize, width: usize, n: u64)
    requires { at + width ≤ length out.old }
    ensures { Put at width n out.old out.new }
{
    bytes::put_number(&mut out[at..at + width], n);
}

fn field(payload: &[u8], at: usize, width: usize) -> u64
    requires { (at + width ≤ length payload.now) × (width ≤ 8) }
    ensures value { result ≡ field_of width at payload.now }
    ensures upper_bound { result < 256 ^ width }
{
    bytes::number(&payload[at..at + width])
}

// The form and the settings, 24 bytes.
fn write_settings(out: &mut [u8], sketch: MicroCm)
    requires { length out.old ≡ 24 }
    ensures { out.new ≡ take 24 (header_of sketch) }
{
    let params = sketch.params;
    let clock = sketch.clock;
    put_field(out, 0, 4, 1);
    // `as`: the library has no `From` of a usize.
    put_field(out, 4, 4, sketch.rows as u64);
    put_field(out, 8, 4, sketch.cols as u64);
    put_field(out, 12, 4, params.t as u64);
    put_field(out, 16, 4, u64::from(params.c));
    put_field(out, 20, 4, kind(clock));
}

// The clock and the random state, 32 bytes.
fn write_state(out: &mut [u8], sketch: MicroCm)
    requires { length out.old ≡ 32 }
    ensures { out.new ≡ drop 24 (header_of sketch) }
{
    let clock = sketch.clock;
    let rounding = sketch.rounding;
    put_field(out, 0, 8, clock_steps::worker::length(clock));
    put_field(out, 8, 8, epoch(clock));
    put_field(out, 16, 8, reading(clock));
    put_field(out, 24, 8, rounding.state);
}

pub fn write_header(out: &mut [u8], sketch: MicroCm)
    requires { length out.old ≡ 56 }
    ensures { out.new ≡ header_of sketch }
{
    write_settings(&mut out[0..24], sketch);
    write_state(&mut out[24..56], sketch);
}

// Whether the form, the kind of clock, a byte that must be 0 or a count clock's epoch is wrong.
pub fn wrong_form(payload: &[u8]) -> bool
    requires { length payload.now ≡ 504 }
    ensures { result ≡ wrong_form payload.now }
{
    // One test behind another: as one condition, each `||` of which joins two ways before the next, the proof did not close.
    if field(payload, 0, 4) != 1 {
        return true;
    }
    let kind = field(payload, 20, 4);
    if 1 < kind {
        return true;
    }
    if !bytes::zeros(&payload[56..504]) {
        return true;
    }
    kind == 0 && field(payload, 32, 8) != NO_EPOCH
}

fn clock_in(payload: &[u8]) -> SubWindowClock
    requires { length payload.now ≡ 504 }
    ensures { result ≡ clock_in payload.now }
{
    let length = field(payload, 24, 8);
    let reading = field(payload, 40, 8);
    if field(payload, 20, 4) == 0 {
        return SubWindowClock::CountBased {
            items_per_sub_window: length,
            seen: reading,
        };
    }
    SubWindowClock::TimeBased {
        sub_window_len: length,
        epoch: field(payload, 32, 8),
        now: reading,
    }
}

// The sketch that the header describes, whatever its numbers say.
pub fn sketch_in(payload: &[u8]) -> MicroCm
    requires { length payload.now ≡ 504 }
    ensures { result ≡ sketch_in payload.now }
{
    // `as`: four bytes fit, so that `try_from` would ask for an answer to an error that cannot come.
    let rows = field(payload, 4, 4) as usize;
    let cols = field(payload, 8, 4) as usize;
    let t = field(payload, 12, 4) as usize;
    let c = field(payload, 16, 4) as u32;
    let clock = clock_in(payload);
    let state = field(payload, 48, 8);
    MicroCm {
        rows,
        cols,
        params: MicroParams { t, c },
        clock,
        rounding: Rounding { state },
    }
}

// The header's answer: 18, then 1 to 5.
pub fn header_in(payload: &[u8]) -> Header
    requires { length payload.now ≡ 504 }
    ensures { result ≡ header_in payload.now }
{
    if wrong_form(payload) {
        return Header::Refused(18);
    }
    let sketch = sketch_in(payload);
    let verdict = sketch_judging::judge::numbers(sketch);
    if !verdict.accepted() {
        return Header::Refused(verdict.number());
    }
    Header::Sketch(sketch)
}
