// The words of a line: what blanks part.
ghost use Rattle.std.specs.Prelude.{◌≤◌, length};
ghost use Rattle.std.specs.Iterator.{at_most};

fn is_blank(byte: u8) -> bool {
    matches!(byte, b' ' | b'\t' | b'\r')
}

fn past_blanks(line: &[u8]) -> &[u8]
    ensures { length result.now ≤ length line.now }
{
    let blanks = line.iter().take_while(|byte| is_blank(**byte)).count();
    line.get(blanks..).unwrap_or_default()
}

// The words of a line that are still to come.
#[derive(Clone, Copy)]
pub(crate) struct Words<'a> {
    rest: &'a [u8],
}

impl<'a> Words<'a> {
    pub(crate) fn of(line: &'a [u8]) -> Words<'a> {
        Words { rest: line }
    }
}

impl<'a> Iterator for Words<'a> {
    type Item = &'a [u8];

    ghost remaining = { λ s. at_most (length s.rest.now) };

    fn next(&mut self) -> Option<&'a [u8]> {
        let from = past_blanks(self.rest);
        let (_, behind) = from.split_first()?;
        let more = behind.iter().take_while(|byte| !is_blank(**byte)).count();
        let (word, rest) = from.split_at(more + 1);
        self.rest = rest;
        Some(word)
    }
}

// The line before its comment.
pub fn before_comment(line: &[u8]) -> &[u8] {
    line.split(|byte| *byte == b'#').next().unwrap_or_default()
}

// The word of this number; 0 is the first, and one that is not there is empty.
pub fn word(line: &[u8], number: usize) -> &[u8] {
    Words::of(line).nth(number).unwrap_or_default()
}

// What stands from the word of this number to the end.
pub fn rest(line: &[u8], number: usize) -> &[u8] {
    let mut words = Words::of(line);
    for _ in 0..number {
        let _ = words.next();
    }
    past_blanks(words.rest)
}

// How many words the line has.
pub fn count(line: &[u8]) -> usize {
    Words::of(line).count()
}
