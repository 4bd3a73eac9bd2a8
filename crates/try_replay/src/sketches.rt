// The file `sketches`: calls on two sketches, each of which goes on from where the last call on it left it.
mod call;
mod grid;
mod outcome;
mod record;
mod show;

use crate::replay::{Records, Stop, Tally};
use crate::{replay, report};
use outcome::{Merged, Outcome};
use program_text::slices;
use record::Record;
use sketch::MicroCm;
use std::io;
use std::io::Read;

// A sketch, and the room that its grid has.
#[derive(Drop)]
struct Slot<'a> {
    sketch: MicroCm,
    room: &'a mut [u8],
}

// The slots 0 and 1.
#[derive(Drop)]
pub struct Sketches<'a> {
    first: Slot<'a>,
    second: Slot<'a>,
}

impl<'a> Slot<'a> {
    // What a slot has until a sketch is made in it: all numbers are 0, and every call on it is refused.
    fn new(room: &'a mut [u8]) -> Slot<'a> {
        Slot {
            sketch: call::fresh_of(&[]),
            room,
        }
    }

    fn merged(&self) -> Merged<'_> {
        Merged {
            sketch: self.sketch,
            grid: self
                .room
                .get(..grid::size_of(self.sketch))
                .unwrap_or_default(),
        }
    }

    // After a wrong call the sketch goes on as our call left it.
    fn turn(
        &mut self,
        rt: &impl Print,
        record: Record<'_>,
        other: Merged<'_>,
        tally: Tally,
    ) -> Result<bool, Stop> {
        let before = record.call.subject(self.sketch);
        let Some(grid) = self.room.get_mut(..grid::size_of(before)) else {
            return Err(Stop::CutShort);
        };
        let mut copy = [0u8; 200];
        slices::copy(&mut copy, grid);
        let outcome = Outcome::of(record, self.sketch, grid, other);
        self.sketch = outcome.sketch;
        let came = outcome.answer(before, grid);
        let right = came == record.expected && grid::as_shown(grid, record.shown);
        if !right && tally.wrong == 0 {
            let shown = copy.get(..grid.len()).unwrap_or_default();
            report::call(rt, "sketches", tally, record.call.name())?;
            show::call(rt, record, before)?;
            show::answers(rt, record.expected, came)?;
            show::grids(rt, record, shown, other.grid, grid)?;
        }
        Ok(right)
    }
}

impl<'a> Sketches<'a> {
    pub fn new(first: &'a mut [u8], second: &'a mut [u8]) -> Sketches<'a> {
        Sketches {
            first: Slot::new(first),
            second: Slot::new(second),
        }
    }
}

impl Records for Sketches<'_> {
    fn turn<P: Print, F: Read>(
        &mut self,
        rt: &P,
        file: &mut F,
        tally: Tally,
    ) -> Result<bool, Stop> {
        let mut key = [0u32; 128];
        let mut grid = [0u8; 200];
        let record = Record::read(file, &mut key, &mut grid)?;
        match record.slot {
            0 => self.first.turn(rt, record, self.second.merged(), tally),
            1 => self.second.turn(rt, record, self.first.merged(), tally),
            _ => Err(Stop::CutShort),
        }
    }
}
