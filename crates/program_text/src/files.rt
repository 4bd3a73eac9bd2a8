// Whole files: one is replaced so that no failure leaves a part of it, and one is read to its end. A name is UTF-8 text; any
// other is no file's.
ghost use Rattle.std.specs.Prelude.{◌<◌, ◌≤◌, IfOk, length};

use std::fs::{File, OpenFile, OpenOptions};
use std::io::{Error, ErrorKind, Read, Write};
use std::rt::Files;
use std::{fs, io, str};

// As many names are tried for a new file beside another.
const NAMES: u32 = 1_000_000;

// The name of a file, as the library takes it.
fn path(name: &[u8]) -> io::Result<&str> {
    str::from_utf8(name).map_err(|_| Error::from(ErrorKind::InvalidInput))
}

// Whether the name is free or a file's. What cannot be synced is a device or a pipe, and no file to replace.
fn replaceable<R: Files>(rt: &R, name: &str) -> bool {
    match OpenOptions::new().read(true).write(true).open(rt, name) {
        Ok(file) => file.sync_all().is_ok(),
        Err(e) => e.kind() == ErrorKind::NotFound,
    }
}

// A name that no file has: this one, a dot and six digits.
fn named_anew<R: Files + Alloc>(rt: &R, name: &str) -> io::Result<String<R::A>> {
    for turn in 0..NAMES {
        let beside = format!(in rt.alloc(); "{name}.{turn:06}")?;
        match fs::symlink_metadata(rt, beside.as_str()) {
            Ok(_) => {}
            Err(e) if e.kind() == ErrorKind::NotFound => return Ok(beside),
            Err(e) => return Err(e),
        }
    }
    Err(Error::from(ErrorKind::AlreadyExists))
}

// All bytes into the file and on to its device. It is closed at the end.
fn write_out<F: Write + OpenFile + Drop>(mut file: F, bytes: &[u8]) -> io::Result<()> {
    file.write_all(bytes)?;
    file.sync_all()
}

// A new file takes the name once it is whole: whatever fails before, the file that had the name is there as it was.
fn replace<R: Files>(
    rt: &R,
    name: &str,
    file: R::File,
    beside: &str,
    bytes: &[u8],
) -> io::Result<()> {
    write_out(file, bytes)?;
    fs::rename(rt, beside, name)
}

// Where that fails nothing is left beside it.
fn replace_by<R: Files>(rt: &R, name: &str, beside: &str, bytes: &[u8]) -> io::Result<()> {
    let file = File::create_new(rt, beside)?;
    let replaced = replace(rt, name, file, beside, bytes);
    if replaced.is_err() {
        let _ = fs::remove_file(rt, beside);
    }
    replaced
}

// The new file stands beside the old one: a file can change its name only on its own device.
fn write_beside<R: Files + Alloc>(rt: &R, name: &str, bytes: &[u8]) -> io::Result<()> {
    let beside = named_anew(rt, name)?;
    replace_by(rt, name, beside.as_str(), bytes)
}

// All these bytes are now the file of this name, and on its device; or else the file is as it was.
pub fn write<R: Files + Alloc>(rt: &R, name: &[u8], bytes: &[u8]) -> io::Result<()> {
    let name = path(name)?;
    if replaceable(rt, name) {
        return write_beside(rt, name, bytes);
    }
    Err(Error::from(ErrorKind::PermissionDenied))
}

// Why no whole file was read.
#[derive(Clone, Copy)]
pub enum Unread {
    // It fills the room, and so may be longer.
    TooLong,
    // It could not be opened, or not be read to its end.
    Failed,
}

// Reads until the room is full, the file ends or a read fails, and gives how many bytes now stand at the start of the room.
// The library's `read_exact` would not say how many.
pub fn read_full<F: Read>(file: &mut F, room: &mut [u8]) -> usize
    ensures { result ≤ length room.new }
{
    let mut count = 0usize;
    while count < room.len() {
        let Ok(got) = file.read(&mut room[count..]) else {
            return count;
        };
        if got == 0 {
            return count;
        }
        count += got;
    }
    count
}

// A read that fails, as of a directory, stops `read_full` as the end does; then one more read does not give 0.
fn at_end<F: Read>(file: &mut F) -> bool {
    let mut more = [0u8; 1];
    matches!(file.read(&mut more), Ok(0))
}

fn opened<R: Files>(rt: &R, name: &[u8]) -> io::Result<R::File> {
    File::open(rt, path(name)?)
}

// The bytes of a file, at the front of a room that is longer.
pub fn read_whole<'a, R: Files>(rt: &R, name: &[u8], room: &'a mut [u8]) -> Result<&'a [u8], Unread>
    ensures { IfOk result (λ bytes. length bytes.now < length room.old) }
{
    let Ok(mut file) = opened(rt, name) else {
        return Err(Unread::Failed);
    };
    let count = read_full(&mut file, room);
    if count == room.len() {
        return Err(Unread::TooLong);
    }
    if !at_end(&mut file) {
        return Err(Unread::Failed);
    }
    Ok(&room[..count])
}
