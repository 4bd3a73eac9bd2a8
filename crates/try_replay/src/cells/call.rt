// The calls of the crate cell, and their answers, as they stand in the headers of the file `cells`.
use crate::answer::Bits;
use crate::{answer, report};
use cell::{CellAnswer, MicroParams};
use program_text::fields;
use rounding::Rounding;
use std::fmt::Display;
use std::{fmt, io};

#[derive(Clone, Copy)]
enum Kind {
    Insert,
    EnterSubWindow,
    MergeCells,
    Layout,
    Fields,
    // The number that a broken record holds, which may be any: what the call is shown with hangs on it.
    Unknown(u8),
}

#[derive(Clone, Copy)]
pub struct Call {
    kind: Kind,
    params: MicroParams,
    n: u64,
    crossed: u64,
    state: u64,
}

// What a call gives beside the bytes.
#[derive(Clone, Copy, PartialEq, Eq)]
enum Values {
    Changed {
        draws: u32,
        state: u64,
    },
    Layout {
        depth: u64,
        pixels: u64,
        max_zoom: u64,
    },
    Fields {
        zoom: u64,
        shutter: u64,
        scaled_pixel: Bits,
    },
}

#[derive(Clone, Copy, PartialEq, Eq)]
pub struct Answer {
    // A number: it is printed as one, and NO_SUCH_KIND is no verdict's; an enum of both would be turned back at each use.
    refused: u8,
    values: Values,
}

impl From<u8> for Kind {
    fn from(kind: u8) -> Kind {
        match kind {
            1 => Kind::Insert,
            2 => Kind::EnterSubWindow,
            3 => Kind::MergeCells,
            4 => Kind::Layout,
            5 => Kind::Fields,
            _ => Kind::Unknown(kind),
        }
    }
}

impl Display for Kind {
    fn fmt<W: fmt::Write>(&self, f: &mut fmt::Formatter<W>) -> fmt::Result {
        f.write_str(match self {
            Kind::Insert => "insert",
            Kind::EnterSubWindow => "enter_sub_window",
            Kind::MergeCells => "merge_cells",
            Kind::Layout => "MicroLayout::new and max_zoom",
            Kind::Fields => "zoom, shutter and scaled_pixel",
            Kind::Unknown(_) => "no such kind",
        })
    }
}

impl Call {
    pub fn of(header: &[u8; 48]) -> Call {
        let params = MicroParams {
            t: usize::from(fields::u16_at(header, 2)),
            c: u32::from(fields::u16_at(header, 4)),
        };
        Call {
            kind: Kind::from(fields::u8_at(header, 0)),
            params,
            n: fields::u64_at(header, 16),
            crossed: fields::u64_at(header, 24),
            state: fields::u64_at(header, 32),
        }
    }

    pub fn perform(self, cell: &mut [u8], src: &[u8]) -> Answer {
        let params = self.params;
        let n = self.n;
        let rounding = Rounding { state: self.state };
        match self.kind {
            Kind::Insert => Answer::from(cell_insertion::insert(cell, params, n, rounding)),
            Kind::EnterSubWindow => Answer::from(cell_crossing::enter_sub_window(
                cell,
                params,
                n,
                self.crossed,
                rounding,
            )),
            Kind::MergeCells => {
                Answer::from(cell_merging::merge_cells(cell, src, params, n, rounding))
            }
            Kind::Layout => laid_out(params),
            Kind::Fields => fields_of(cell, params, n),
            Kind::Unknown(_) => Answer {
                refused: answer::NO_SUCH_KIND,
                values: Values::Changed { draws: 0, state: 0 },
            },
        }
    }
}

impl Display for Call {
    fn fmt<W: fmt::Write>(&self, f: &mut fmt::Formatter<W>) -> fmt::Result {
        let kind = self.kind;
        let t = self.params.t;
        let c = self.params.c;
        let n = self.n;
        let crossed = self.crossed;
        let state = self.state;
        write!(f, "{kind}, t {t}, c {c}")?;
        match kind {
            Kind::Insert | Kind::MergeCells | Kind::Unknown(0) => {
                write!(f, ", n {n}, state {state}")
            }
            Kind::EnterSubWindow => write!(f, ", n {n}, crossed {crossed}, state {state}"),
            Kind::Layout => Ok(()),
            Kind::Fields | Kind::Unknown(_) => write!(f, ", n {n}"),
        }
    }
}

impl From<CellAnswer> for Answer {
    fn from(answer: CellAnswer) -> Answer {
        Answer {
            refused: answer.verdict.number(),
            values: Values::Changed {
                draws: answer.draws,
                state: answer.rounding.state,
            },
        }
    }
}

fn laid_out(params: MicroParams) -> Answer {
    let answer = cell_reading::layout(params);
    let top = cell_reading::max_zoom(params.c);
    Answer {
        refused: answer::first(&[answer.verdict.number(), top.verdict.number()]),
        values: Values::Layout {
            depth: answer.layout.depth as u64,
            pixels: answer.layout.pixels as u64,
            max_zoom: u64::from(top.zoom),
        },
    }
}

fn fields_of(cell: &[u8], params: MicroParams, n: u64) -> Answer {
    let zoom = cell_reading::zoom(cell, params);
    let shutter = cell_reading::shutter(cell, params);
    let pixel = cell_reading::scaled_pixel(cell, params, n);
    Answer {
        refused: answer::first(&[
            zoom.verdict.number(),
            shutter.verdict.number(),
            pixel.verdict.number(),
        ]),
        values: Values::Fields {
            zoom: u64::from(zoom.zoom),
            shutter: u64::from(shutter.shutter),
            scaled_pixel: Bits::of(pixel.items),
        },
    }
}

impl Answer {
    pub fn of(header: &[u8; 48]) -> Answer {
        let values = match Kind::from(fields::u8_at(header, 0)) {
            Kind::Layout => Values::Layout {
                depth: u64::from(fields::u16_at(header, 6)),
                pixels: fields::u64_at(header, 16),
                max_zoom: fields::u64_at(header, 24),
            },
            Kind::Fields => Values::Fields {
                zoom: fields::u64_at(header, 32),
                shutter: fields::u64_at(header, 40),
                scaled_pixel: Bits::at(header, 24),
            },
            _ => Values::Changed {
                draws: fields::u32_at(header, 8),
                state: fields::u64_at(header, 40),
            },
        };
        Answer { refused: 0, values }
    }

    pub fn show_beside(self, rt: &impl Print, came: Answer) -> io::Result<()> {
        report::compare(rt, "refused by", self.refused, came.refused)?;
        match (self.values, came.values) {
            (
                Values::Changed { draws, state },
                Values::Changed {
                    draws: came_draws,
                    state: came_state,
                },
            ) => {
                report::compare(rt, "draws", draws, came_draws)?;
                report::compare(rt, "state", state, came_state)
            }
            (
                Values::Layout {
                    depth,
                    pixels,
                    max_zoom,
                },
                Values::Layout {
                    depth: came_depth,
                    pixels: came_pixels,
                    max_zoom: came_max_zoom,
                },
            ) => {
                report::compare(rt, "depth", depth, came_depth)?;
                report::compare(rt, "pixels", pixels, came_pixels)?;
                report::compare(rt, "max_zoom", max_zoom, came_max_zoom)
            }
            (
                Values::Fields {
                    zoom,
                    shutter,
                    scaled_pixel,
                },
                Values::Fields {
                    zoom: came_zoom,
                    shutter: came_shutter,
                    scaled_pixel: came_scaled_pixel,
                },
            ) => {
                report::compare(rt, "zoom", zoom, came_zoom)?;
                report::compare(rt, "shutter", shutter, came_shutter)?;
                report::compare(rt, "scaled_pixel", scaled_pixel, came_scaled_pixel)
            }
            // Both are of the record's kind.
            _ => Ok(()),
        }
    }
}
