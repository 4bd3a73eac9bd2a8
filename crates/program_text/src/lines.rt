// Lines from a reader, as standard input. A buffer is lent that holds what was read and not used yet; a line that does not fit it is turned back.
ghost use Rattle.std.specs.Prelude.{◌≤◌, length};

use std::io::Read;
use std::{io, mem};

// Why no line comes.
#[derive(Clone, Copy, Debug)]
pub enum LineError {
    // The line does not fit the buffer. What is left of it is no line of its own.
    TooLong,
    Input(io::Error),
}

impl From<io::Error> for LineError {
    fn from(error: io::Error) -> LineError {
        LineError::Input(error)
    }
}

#[derive(Drop)]
pub struct LineReader<'a, I> {
    input: &'a mut I,
    buffer: &'a mut [u8],
    // What is left to use of the buffer stands from `from` to `to`.
    from: usize,
    to: usize,
    // Inside a line that was turned back as too long.
    skipping: bool,
    // The input has ended.
    ended: bool,
    ghost ordered: { from ≤ to },
    ghost within: { to ≤ length buffer.now },
}

impl<'a, I: Read> LineReader<'a, I> {
    // Nothing was read yet.
    pub fn new(input: &'a mut I, buffer: &'a mut [u8]) -> LineReader<'a, I> {
        LineReader {
            input,
            buffer,
            from: 0,
            to: 0,
            skipping: false,
            ended: false,
        }
    }

    // The next line, and none at the end of the input. The last may have no line end.
    pub fn next(&mut self) -> Result<Option<&[u8]>, LineError> {
        // Nothing says that the input ends, and a loop has to: so it counts to what no input reaches.
        for _ in 0..u64::MAX {
            let start = self.from;
            let held = &self.buffer[start..self.to];
            match held.iter().position(|byte| *byte == b'\n') {
                Some(length) => {
                    self.from = start + length + 1;
                    if !mem::replace(&mut self.skipping, false) {
                        return Ok(Some(&self.buffer[start..start + length]));
                    }
                }
                None if self.ended => return Ok(self.last()),
                None => self.refill()?,
            }
        }
        Ok(None)
    }

    // What stands behind the last line end, and once.
    fn last(&mut self) -> Option<&[u8]> {
        let start = self.from;
        self.from = self.to;
        if self.skipping || start == self.to {
            return None;
        }
        Some(&self.buffer[start..self.to])
    }

    // More of the input behind what is left of the buffer, which goes to its start to make room. A line is turned back once,
    // however often it fills the buffer.
    fn refill(&mut self) -> Result<(), LineError> {
        let from = self.from;
        self.buffer.copy_within(from..self.to, 0);
        self.from = 0;
        self.to -= from;
        if self.to == self.buffer.len() {
            self.to = 0;
            if !mem::replace(&mut self.skipping, true) {
                return Err(LineError::TooLong);
            }
        }
        let got = self.input.read(&mut self.buffer[self.to..])?;
        self.to += got;
        self.ended = got == 0;
        Ok(())
    }
}
