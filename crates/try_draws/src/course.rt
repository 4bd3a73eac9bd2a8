// What every long run has in common: its length, when it prints, and the digest of its values.
use std::fmt::Display;
use std::io;

const TURNS: u64 = 1_000_000;

// A long run. It is shown by what its turns so far come to.
pub trait Course: Display {
    type Answer: Display + Drop;

    fn turn(&mut self) -> Self::Answer;
}

// A run prints after each power of ten.
fn is_mark(count: u64) -> bool {
    matches!(count, 1 | 10 | 100 | 1_000 | 10_000 | 100_000 | 1_000_000)
}

// The digest with one value more: turned left by 5 binary places, then the value added modulo 2^64. Each step can be
// undone, so a single value that differs always shows.
pub fn digest(before: u64, value: u64) -> u64 {
    before.rotate_left(5).wrapping_add(value)
}

pub fn run<C: Course>(rt: &impl Print, turn: &str, course: &mut C) -> io::Result<()> {
    for count in 1..=TURNS {
        let answer = course.turn();
        if is_mark(count) {
            let so_far = &*course;
            println!(rt; "  {turn} {count}{answer}{so_far}")?;
        }
    }
    Ok(())
}
