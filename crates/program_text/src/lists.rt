// The codes of a line, a word each: its columns, a colon, its limit. The columns of all are put one behind another, as the core
// takes them: whether they are one a row for each code, the core judges.
ghost use Rattle.std.specs.Prelude.{◌<◌, ◌≤◌, IfSome, length};

use crate::words::Words;
use crate::{columns, numbers};

// A code's columns go to the front of `columns`, and its limit into `limit`. How many columns it has.
fn code(word: &[u8], columns: &mut [u32], limit: &mut u64) -> Option<usize>
    ensures some { IfSome result (λ count. 0 < count) }
    ensures within { IfSome result (λ count. count ≤ length columns.old) }
{
    let colon = word.iter().position(|byte| *byte == b':')?;
    let (key, behind) = word.split_at(colon);
    let key = columns::read(key, columns)?;
    *limit = numbers::parse(behind.get(1..)?)?;
    Some(key.len())
}

// The columns and the limits of the codes from the third word on. None if a word is no code, or there is no room for all.
pub fn read<'a>(
    line: &[u8],
    columns: &'a mut [u32],
    limits: &'a mut [u64],
) -> Option<(&'a [u32], &'a [u64])>
    ensures { IfSome result (λ codes. length codes.1.now ≤ length codes.0.now) }
{
    let mut codes = 0usize;
    let mut filled = 0usize;
    for word in Words::of(line).skip(2) {
        filled += code(word, columns.get_mut(filled..)?, limits.get_mut(codes)?)?;
        codes += 1;
    }
    Some((columns.get(..filled)?, limits.get(..codes)?))
}
