// A record of the file `sketches`: a header, and behind it words, columns and a grid of lengths that the header has.
use crate::replay;
use crate::replay::Stop;
use crate::sketches::call::{Answer, Call};
use program_text::fields;
use std::io::Read;

#[derive(Clone, Copy)]
pub struct Record<'a> {
    pub slot: u8,
    pub call: Call,
    pub expected: Answer,
    pub key: &'a [u32],
    // The grid, if the record shows it.
    pub shown: &'a [u8],
}

// So many bytes of the file, at the front of a buffer, if it has room for them.
fn part<'a>(file: &mut impl Read, buffer: &'a mut [u8], length: usize) -> Result<&'a [u8], Stop> {
    let Some(part) = buffer.get_mut(..length) else {
        return Err(Stop::CutShort);
    };
    replay::fill(file, part)?;
    Ok(part)
}

// Columns of two bytes, by row.
fn key_of<'a>(columns: &[u8], key: &'a mut [u32]) -> &'a [u32] {
    for (place, column) in key.iter_mut().zip(columns.chunks_exact(2)) {
        *place = u32::from(fields::u16_at(column, 0));
    }
    key.get(..columns.len() / 2).unwrap_or_default()
}

impl<'a> Record<'a> {
    // The key and the grid stand in what is lent for them.
    pub fn read(
        file: &mut impl Read,
        key: &'a mut [u32],
        grid: &'a mut [u8],
    ) -> Result<Record<'a>, Stop> {
        let header: [u8; 64] = replay::header(file)?;
        let mut words = [0u8; 80];
        let words = part(file, &mut words, usize::from(fields::u8_at(&header, 3)) * 8)?;
        let mut columns = [0u8; 256];
        let columns = part(
            file,
            &mut columns,
            usize::from(fields::u16_at(&header, 4)) * 2,
        )?;
        let shown = part(file, grid, fields::u32_at(&header, 8) as usize)?;
        Ok(Record {
            slot: fields::u8_at(&header, 1),
            call: Call::of(&header, words),
            expected: Answer::of(&header, words),
            key: key_of(columns, key),
            shown,
        })
    }
}
