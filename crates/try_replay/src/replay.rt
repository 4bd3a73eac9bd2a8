// A file of recorded calls: each is read, made and compared.
use program_text::files;
use std::io;
use std::io::Read;

// How much of a file has been replayed.
#[derive(Clone, Copy)]
pub struct Tally {
    pub calls: u64,
    pub wrong: u64,
}

// Why no more of a file is replayed.
#[derive(Clone, Copy, Debug)]
pub enum Stop {
    // It has ended.
    End,
    // Its next record is cut short, or longer than the format allows.
    CutShort,
    // What is wrong cannot be told.
    Output(io::Error),
}

impl From<io::Error> for Stop {
    fn from(error: io::Error) -> Stop {
        Stop::Output(error)
    }
}

pub trait Records {
    // The next record: read, called, compared. Whether all came as it has it; the first wrong call of a file is told.
    fn turn<P: Print, F: Read>(&mut self, rt: &P, file: &mut F, tally: Tally) -> Result<bool, Stop>;
}

// The fixed part of the next record.
pub fn header<const N: usize>(file: &mut impl Read) -> Result<[u8; N], Stop> {
    let mut header = [0u8; N];
    match files::read_full(file, &mut header) {
        0 => Err(Stop::End),
        got if got < N => Err(Stop::CutShort),
        _ => Ok(header),
    }
}

// As many more bytes of it as there is room for.
pub fn fill(file: &mut impl Read, room: &mut [u8]) -> Result<(), Stop> {
    if files::read_full(file, room) < room.len() {
        return Err(Stop::CutShort);
    }
    Ok(())
}

// A part of a record counts as a wrong call.
pub fn all(rt: &impl Print, file: &mut impl Read, records: &mut impl Records) -> io::Result<Tally> {
    let mut tally = Tally { calls: 0, wrong: 0 };
    // Nothing says that a file ends, and a loop has to: so it counts to what no file reaches.
    for _ in 0..u64::MAX {
        match records.turn(rt, file, tally) {
            Ok(right) => {
                tally.calls = tally.calls.saturating_add(1);
                tally.wrong = tally.wrong.saturating_add(u64::from(!right));
            }
            Err(Stop::End) => return Ok(tally),
            Err(Stop::CutShort) => {
                println!(rt; "a record is cut short, or longer than the format allows")?;
                tally.wrong = tally.wrong.saturating_add(1);
                return Ok(tally);
            }
            Err(Stop::Output(error)) => return Err(error),
        }
    }
    Ok(tally)
}
