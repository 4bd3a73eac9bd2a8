// A fresh sketch.
use crate::line::Line;
use crate::slots::Bench;
use crate::trouble::Trouble;
use crate::usage::Command;
use crate::{slots, verdicts};
use cell::MicroParams;
use clock::SubWindowClock;
use service::{Service, ServiceAnswer};

// What a fresh start is given.
#[derive(Clone, Copy)]
struct Settings {
    rows: usize,
    cols: usize,
    params: MicroParams,
    clock: SubWindowClock,
    seed: u64,
}

fn depth(params: MicroParams) -> usize {
    let answer = cell_reading::layout(params);
    answer.layout.depth
}

// The bytes of a grid; more than any grid has where a number is past all settings.
pub fn size(rows: usize, cols: usize, params: MicroParams) -> usize {
    rows.saturating_mul(cols).saturating_mul(depth(params))
}

impl Settings {
    // Those of a line whose words behind the clock's are numbers too.
    fn with(line: Line<'_>, clock: SubWindowClock, seed: u64) -> Option<Settings> {
        Some(Settings {
            rows: line.number(2)? as usize,
            cols: line.number(3)? as usize,
            params: MicroParams {
                t: line.number(4)? as usize,
                c: u32::try_from(line.number(5)?).unwrap_or(u32::MAX),
            },
            clock,
            seed,
        })
    }

    fn of(line: Line<'_>) -> Option<Settings> {
        match line.word(6) {
            b"count" if line.count() == 9 => {
                let clock = SubWindowClock::CountBased {
                    items_per_sub_window: line.number(7)?,
                    seen: 0,
                };
                Settings::with(line, clock, line.number(8)?)
            }
            b"time" if line.count() == 10 => {
                let epoch = line.number(8)?;
                let clock = SubWindowClock::TimeBased {
                    sub_window_len: line.number(7)?,
                    epoch,
                    now: epoch,
                };
                Settings::with(line, clock, line.number(9)?)
            }
            _ => None,
        }
    }

    fn start(self, grid: &mut [u8]) -> ServiceAnswer {
        let Settings {
            rows,
            cols,
            params,
            clock,
            seed,
        } = self;
        Service::with_dimensions(rows, cols, params, clock, seed, grid)
    }
}

pub fn new<'l>(rt: &impl Print, line: Line<'l>, bench: &mut Bench) -> Result<(), Trouble<'l>> {
    let usage = Trouble::Usage(Command::New);
    let mut place = bench.place(line.name(1).ok_or(usage)?);
    let settings = Settings::of(line).ok_or(usage)?;
    // A fresh start on no bytes: 6 stands for settings that are good.
    let judged = settings.start(&mut []);
    if judged.verdict.number() != 6 {
        return Err(Trouble::Refused(judged.verdict));
    }
    let size = size(settings.rows, settings.cols, settings.params);
    if size > slots::LIMIT {
        return Err(Trouble::LargeGrid(size));
    }
    let answer = settings.start(place.room(size));
    verdicts::accepted(answer.verdict)?;
    place.hold(answer.service, size);
    println!(rt; "ok depth={}", depth(settings.params))?;
    Ok(())
}
