// Parts of slices.
ghost use Rattle.std.specs.Prelude.{◌≡◌, ◌-◌, ◌++◌, take, drop, length};

// As many of the values as there is room for.
pub fn copy<T: Copy>(to: &mut [T], from: &[T])
    ensures { to.new ≡ take (length to.old) from.now ++ drop (length from.now) to.old }
{
    let count = to.len().min(from.len());
    to[..count].copy_from_slice(&from[..count]);
}
