// A wrong call is told in full: a line with the call, then a line for each part of the answer.
use crate::replay::Tally;
use program_text::print::HexBytes;
use std::fmt::Display;
use std::io;

// `FILE, call 7: `, to which its name and arguments are added.
pub fn call<D: Display + Drop>(
    rt: &impl Print,
    file: &str,
    tally: Tally,
    call: D,
) -> io::Result<()> {
    let number = tally.calls.saturating_add(1);
    print!(rt; "{file}, call {number}: {call}")
}

pub fn compare<D: Display + Drop>(
    rt: &impl Print,
    name: &str,
    expected: D,
    came: D,
) -> io::Result<()> {
    print!(rt; "\n  {name}: expected {expected}, came {came}")
}

pub fn bytes(rt: &impl Print, name: &str, shown: &[u8]) -> io::Result<()> {
    let shown = HexBytes(shown);
    print!(rt; "\n  {name}: {shown}")
}
