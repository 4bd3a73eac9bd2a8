// The file `cells`: its records hold cells beside the header.
mod call;

use crate::replay::{Records, Stop, Tally};
use crate::{replay, report};
use call::{Answer, Call};
use program_text::{fields, slices};
use std::io;
use std::io::Read;

// Room for the cells of a record, three of the largest depth, and for the one that a call works on.
#[derive(Drop)]
pub struct Cells {
    given: [u8; 12312],
    cell: [u8; 4104],
}

impl Cells {
    pub fn new() -> Cells {
        Cells {
            given: [0; 12312],
            cell: [0; 4104],
        }
    }
}

impl Records for Cells {
    // The call works on the record's first cell and leaves its last; between them stands the one that is merged in.
    fn turn<P: Print, F: Read>(
        &mut self,
        rt: &P,
        file: &mut F,
        tally: Tally,
    ) -> Result<bool, Stop> {
        let header = replay::header(file)?;
        let count = usize::from(fields::u8_at(&header, 1).min(3));
        let depth = if count == 0 {
            0
        } else {
            usize::from(fields::u16_at(&header, 6))
        };
        let Some(cell) = self.cell.get_mut(..depth) else {
            return Err(Stop::CutShort);
        };
        let Some(given) = self.given.get_mut(..depth * count) else {
            return Err(Stop::CutShort);
        };
        replay::fill(file, given)?;
        let last = given.len().saturating_sub(depth);
        let before = given.get(..depth).unwrap_or_default();
        let src = given.get(depth..last).unwrap_or_default();
        let after = given.get(last..).unwrap_or_default();
        slices::copy(cell, before);
        let call = Call::of(&header);
        let expected = Answer::of(&header);
        let came = call.perform(cell, src);
        let right = came == expected && after == &cell[..];
        if !right && tally.wrong == 0 {
            report::call(rt, "cells", tally, call)?;
            expected.show_beside(rt, came)?;
            show_cells(rt, before, src, after, cell)?;
        }
        Ok(right)
    }
}

fn show_cells(
    rt: &impl Print,
    before: &[u8],
    src: &[u8],
    after: &[u8],
    came: &[u8],
) -> io::Result<()> {
    report::bytes(rt, "cell before", before)?;
    report::bytes(rt, "cell merged in", src)?;
    report::bytes(rt, "cell expected", after)?;
    report::bytes(rt, "cell that came", came)?;
    println!(rt)
}
