// Why a line has no `ok`, and how that is said.
use crate::slots;
use crate::usage::Command;
use crate::verdicts::Told;
use refusal::Verdict;
use std::io;

#[derive(Clone, Copy)]
pub enum Trouble<'a> {
    NoCommand,
    // The command takes other words.
    Usage(Command),
    // No sketch of this name was made.
    NoSketch(&'a [u8]),
    // A grid of so many bytes is more than is held here.
    LargeGrid(usize),
    // What is wrong with the file of this name.
    Unwritable(&'a [u8]),
    Unreadable(&'a [u8]),
    LargeFile(&'a [u8]),
    // A call was turned back.
    Refused(Verdict),
    // An answer could not be written: nothing more can be said.
    Output(io::Error),
}

impl<'a> From<io::Error> for Trouble<'a> {
    fn from(error: io::Error) -> Trouble<'a> {
        Trouble::Output(error)
    }
}

// A name is any bytes.
fn tell_name(rt: &impl Print, before: &str, name: &[u8], behind: &str) -> io::Result<()> {
    print!(rt; "error expected {before}")?;
    rt.write_all(name)?;
    println!(rt; "{behind}")
}

impl<'a> Trouble<'a> {
    pub fn tell(self, rt: &impl Print) -> io::Result<()> {
        match self {
            Trouble::NoCommand => println!(rt; "error expected a command; help lists them"),
            Trouble::Usage(command) => println!(rt; "error expected {}", command.form()),
            Trouble::NoSketch(name) => tell_name(rt, "a sketch ", name, ", made by new or load"),
            Trouble::LargeGrid(size) => {
                println!(rt;
                    "error expected a grid of at most {} bytes; this one has {size}",
                    slots::LIMIT
                )
            }
            Trouble::Unwritable(name) => {
                tell_name(rt, "a file that can be written, not ", name, "")
            }
            Trouble::Unreadable(name) => tell_name(rt, "a file that can be read, not ", name, ""),
            Trouble::LargeFile(name) => {
                tell_name(rt, "a file of at most 1065984 bytes, not ", name, "")
            }
            Trouble::Refused(verdict) => println!(rt; "{}", Told(verdict)),
            Trouble::Output(error) => Err(error),
        }
    }
}
