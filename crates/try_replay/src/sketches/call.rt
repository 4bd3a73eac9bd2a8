// A call on a sketch and its answer, as they stand in a record of the file `sketches`.
use crate::answer::Bits;
use crate::clocks::Fields;
use cell::MicroParams;
use clock::SubWindowClock;
use program_text::fields;
use rounding::Rounding;
use sketch::MicroCm;

// The calls, by the kinds of docs/ORACLE.md.
#[derive(Clone, Copy)]
pub enum Call {
    // The sketch to make, with its seed for a state.
    WithDimensions(MicroCm),
    // What the clock's seen or now and the state are set to.
    Set { moment: u64, state: u64 },
    Update { times: u32 },
    UpdateAt { timestamp: u64, times: u32 },
    AdvanceTo { timestamp: u64 },
    Estimate,
    // The bits of the fraction.
    EstimateWith { fraction: u64 },
    Merge,
    MaxZoom,
    SetGrid,
    Unknown,
}

// The bits of what a reading gives: its figures and its fraction, and the two figures that come as whole numbers too.
#[derive(Clone, Copy, PartialEq, Eq)]
pub struct Figures {
    pub over: Bits,
    pub under: Bits,
    pub linear: Bits,
    pub fraction: Bits,
    pub whole_over: Bits,
    pub whole_under: Bits,
}

// What a call gives that leaves the sketch as it is, and a merge.
#[derive(Clone, Copy, PartialEq, Eq)]
pub enum Reading {
    Nothing,
    Figures(Figures),
    // The digest of the grid that was merged in.
    MergedIn(u64),
    MaxZoom(u64),
}

// How the call leaves the sketch and what it gives.
#[derive(Clone, Copy, PartialEq, Eq)]
pub struct Answer {
    // A number: it is printed as one, and NO_SUCH_KIND is no verdict's; an enum of both would be turned back at each use.
    pub refused: u8,
    pub n: u64,
    pub moment: u64,
    pub state: u64,
    pub draws: u64,
    pub digest: u64,
    // Whether rows, cols, t, c and the clock's kind, length and epoch are those of before.
    pub kept: bool,
    pub reading: Reading,
}

impl Call {
    pub fn of(header: &[u8; 64], words: &[u8]) -> Call {
        let times = fields::u32_at(header, 12);
        let argument = fields::u64_at(header, 16);
        match fields::u8_at(header, 0) {
            1 => Call::WithDimensions(fresh_of(words)),
            2 => Call::Set {
                moment: fields::u64_at(words, 0),
                state: fields::u64_at(words, 8),
            },
            3 => Call::Update { times },
            4 => Call::UpdateAt {
                timestamp: argument,
                times,
            },
            5 => Call::AdvanceTo {
                timestamp: argument,
            },
            6 => Call::Estimate,
            7 => Call::EstimateWith { fraction: argument },
            8 => Call::Merge,
            9 => Call::MaxZoom,
            10 => Call::SetGrid,
            _ => Call::Unknown,
        }
    }

    pub fn name(self) -> &'static str {
        match self {
            Call::WithDimensions(_) => "with_dimensions",
            Call::Set { .. } => "seen or now, and the state, set",
            Call::Update { .. } => "update",
            Call::UpdateAt { .. } => "update_at",
            Call::AdvanceTo { .. } => "advance_to",
            Call::Estimate => "estimate",
            Call::EstimateWith { .. } => "estimate_with",
            Call::Merge => "merge",
            Call::MaxZoom => "max_zoom",
            Call::SetGrid => "the grid set",
            Call::Unknown => "no such kind",
        }
    }

    // The sketch whose settings a call keeps: the one in the slot, or the one to make.
    pub fn subject(self, sketch: MicroCm) -> MicroCm {
        match self {
            Call::WithDimensions(fresh) => fresh,
            _ => sketch,
        }
    }
}

// The clock's seen or now is 0 here: a fresh sketch has its own.
pub fn fresh_of(words: &[u8]) -> MicroCm {
    let clock = Fields {
        timed: fields::u64_at(words, 32) != 0,
        length: fields::u64_at(words, 40),
        epoch: fields::u64_at(words, 48),
        moment: 0,
    };
    let params = MicroParams {
        t: fields::u64_at(words, 16) as usize,
        c: fields::u32_at(words, 24),
    };
    MicroCm {
        rows: fields::u64_at(words, 0) as usize,
        cols: fields::u64_at(words, 8) as usize,
        params,
        clock: SubWindowClock::from(clock),
        rounding: Rounding {
            state: fields::u64_at(words, 56),
        },
    }
}

impl Figures {
    fn at(words: &[u8]) -> Figures {
        let over = Bits::at(words, 0);
        let under = Bits::at(words, 8);
        Figures {
            over,
            under,
            linear: Bits::at(words, 16),
            fraction: Bits::at(words, 24),
            whole_over: over,
            whole_under: under,
        }
    }
}

impl Answer {
    pub fn of(header: &[u8; 64], words: &[u8]) -> Answer {
        let reading = match fields::u8_at(header, 0) {
            6 | 7 => Reading::Figures(Figures::at(words)),
            8 => Reading::MergedIn(fields::u64_at(words, 0)),
            9 => Reading::MaxZoom(fields::u64_at(words, 0)),
            _ => Reading::Nothing,
        };
        Answer {
            refused: fields::u8_at(header, 2),
            n: fields::u64_at(header, 24),
            moment: fields::u64_at(header, 32),
            state: fields::u64_at(header, 40),
            draws: fields::u64_at(header, 48),
            digest: fields::u64_at(header, 56),
            kept: true,
            reading,
        }
    }
}
