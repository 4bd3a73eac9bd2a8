// A line of the input by its words; the first is the command's name.
use crate::slots::Name;
use program_text::{columns, lists, numbers, words};

// The tallest sketch has 128 rows.
pub(crate) const ROWS: usize = 128;

// What stands before the comment.
#[derive(Clone, Copy)]
pub struct Line<'a> {
    text: &'a [u8],
}

// A list of codes: the columns of all, one behind another, and a limit for each.
#[derive(Clone, Copy)]
pub struct Codes<'a> {
    pub columns: &'a [u32],
    pub limits: &'a [u64],
}

impl<'a> Line<'a> {
    pub fn new(whole: &'a [u8]) -> Line<'a> {
        Line {
            text: words::before_comment(whole),
        }
    }

    // How many words there are.
    pub fn count(self) -> usize {
        words::count(self.text)
    }

    // A word that is not there is empty.
    pub fn word(self, place: usize) -> &'a [u8] {
        words::word(self.text, place)
    }

    // What stands from a word on.
    pub fn rest(self, place: usize) -> &'a [u8] {
        words::rest(self.text, place)
    }

    // The sketch that a word names.
    pub(crate) fn name(self, place: usize) -> Option<Name> {
        Name::from_word(self.word(place))
    }

    pub(crate) fn number(self, place: usize) -> Option<u64> {
        numbers::parse(self.word(place))
    }

    pub fn at_most(self, place: usize, most: u64) -> Option<u64> {
        self.number(place).filter(|number| *number <= most)
    }

    // The 16 digits of an f64.
    pub(crate) fn bits(self, place: usize) -> Option<u64> {
        numbers::parse_bits(self.word(place))
    }

    // The columns of a key, put into `room`.
    pub(crate) fn key<'k>(self, place: usize, room: &'k mut [u32; ROWS]) -> Option<&'k [u32]> {
        columns::read(self.word(place), room)
    }

    // The codes from the third word on; none if a word is no code.
    pub fn codes<'k>(self, columns: &'k mut [u32], limits: &'k mut [u64]) -> Option<Codes<'k>> {
        let (columns, limits) = lists::read(self.text, columns, limits)?;
        Some(Codes { columns, limits })
    }
}
