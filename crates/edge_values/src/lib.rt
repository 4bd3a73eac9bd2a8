// What the words that a caller keeps stand for, and the words of a sketch and of watched codes. include/microscope.h names them.
#![tactic(auto)]

ghost use Rattle.std.specs.Prelude.{◌≡◌};
ghost use Rattle.refusal.specs.Refusals.{number_of, index_of};
ghost use Rattle.clock.specs.Clock.{reading_of};
ghost use Rattle.edge_values.specs.Edge.{clock_of, base_of, params_of, sketch_of, words_of, watch_of, watch_words};

use cell::MicroParams;
use clock::SubWindowClock;
use codes::Watch;
use refusal::Verdict;
use rounding::Rounding;
use sketch::MicroCm;

pub fn number(verdict: Verdict) -> u64
    ensures { result ≡ number_of verdict }
{
    verdict.number() as u64
}

pub fn index(verdict: Verdict) -> u64
    ensures { result ≡ index_of verdict }
{
    verdict.index() as u64
}

// No base needs more than 32 bits; this one is refused by 2.
const NO_BASE: u32 = 0;

pub fn base(c: u64) -> u32
    ensures { result ≡ base_of c }
{
    if c < 4294967296 {
        return c as u32;
    }
    NO_BASE
}

pub fn params(t: u64, c: u64) -> MicroParams
    ensures { result ≡ params_of t c }
{
    MicroParams {
        t: t as usize,
        c: base(c),
    }
}

// A kind that is no kind gives a clock that every call refuses by 3.
pub fn clock(kind: u64, length: u64, epoch: u64, reading: u64) -> SubWindowClock
    ensures { result ≡ clock_of kind length epoch reading }
{
    if kind == 0 {
        return SubWindowClock::CountBased {
            items_per_sub_window: length,
            seen: reading,
        };
    }
    if kind == 1 {
        return SubWindowClock::TimeBased {
            sub_window_len: length,
            epoch,
            now: reading,
        };
    }
    SubWindowClock::CountBased {
        items_per_sub_window: 0,
        seen: 0,
    }
}

pub fn sketch(words: &[u64; 9]) -> MicroCm
    ensures { result ≡ sketch_of words.now }
{
    let rows = words[0] as usize;
    let cols = words[1] as usize;
    let params = params(words[2], words[3]);
    let clock = clock(words[4], words[5], words[6], words[7]);
    let state = words[8];
    MicroCm {
        rows,
        cols,
        params,
        clock,
        rounding: Rounding { state },
    }
}

pub fn put_sketch(words: &mut [u64; 9], sketch: MicroCm)
    ensures { words.new ≡ words_of sketch }
{
    let params = sketch.params;
    let rounding = sketch.rounding;
    let clock = sketch.clock;
    let rows = sketch.rows as u64;
    let cols = sketch.cols as u64;
    let t = params.t as u64;
    let c = params.c as u64;
    match clock {
        SubWindowClock::CountBased {
            items_per_sub_window,
            seen,
        } => *words = [
            rows,
            cols,
            t,
            c,
            0,
            items_per_sub_window,
            0,
            seen,
            rounding.state,
        ],
        SubWindowClock::TimeBased {
            sub_window_len,
            epoch,
            now,
        } => *words = [
            rows,
            cols,
            t,
            c,
            1,
            sub_window_len,
            epoch,
            now,
            rounding.state,
        ],
    }
}

pub fn watch(words: &[u64; 3]) -> Watch
    ensures { result ≡ watch_of words.now }
{
    let count = words[0] as usize;
    let rows = words[1] as usize;
    let reached = words[2];
    Watch {
        count,
        rows,
        reached,
    }
}

pub fn put_watch(words: &mut [u64; 3], watch: Watch)
    ensures { words.new ≡ watch_words watch }
{
    *words = [watch.count as u64, watch.rows as u64, watch.reached];
}

pub fn reading_in(clock: SubWindowClock) -> u64
    ensures { result ≡ reading_of clock }
{
    match clock {
        SubWindowClock::CountBased { seen, .. } => seen,
        SubWindowClock::TimeBased { now, .. } => now,
    }
}
