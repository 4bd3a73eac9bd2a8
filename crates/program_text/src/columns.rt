// A key: its columns, one for each row, parted by commas. The tallest sketch has 128 rows.
ghost use Rattle.std.specs.Prelude.{◌<◌, ◌≤◌, IfSome, length};

use crate::numbers;

// The columns of a word, at the front of `room`. None if the word is no list of columns, or of more than there is room for.
pub fn read<'a>(word: &[u8], room: &'a mut [u32]) -> Option<&'a [u32]>
    ensures some { IfSome result (λ key. 0 < length key.now) }
    ensures within { IfSome result (λ key. length key.now ≤ length room.old) }
{
    let mut count = 0usize;
    for column in word.split(|byte| *byte == b',') {
        let place = room.get_mut(count)?;
        *place = u32::try_from(numbers::parse(column)?).ok()?;
        count += 1;
    }
    if count == 0 {
        return None;
    }
    room.get(..count)
}
