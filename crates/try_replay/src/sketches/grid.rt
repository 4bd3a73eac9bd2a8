// The bytes of a grid.
ghost use Rattle.std.specs.Prelude.{◌<◌};

use sketch::MicroCm;

// Below 2^55, so that no step of a digest passes 2^64.
const MODULUS: u64 = 36_028_797_018_963_913;

// How many a sketch has, and 0 where it is out of the format's bounds.
pub fn size_of(sketch: MicroCm) -> usize {
    let depth = cell_reading::layout(sketch.params).layout.depth;
    size(sketch.rows, sketch.cols, depth)
}

fn size(rows: usize, cols: usize, depth: usize) -> usize {
    if rows > 128 || cols > 65536 || depth > 4104 {
        return 0;
    }
    rows * cols * depth
}

// docs/ORACLE.md's digest.
pub fn digest(grid: &[u8]) -> u64 {
    let mut sum: u64 = 0;
    // A loop: its invariant keeps the sum below the modulus, as `step` asks; `fold` asks the same of its closure, and is no plainer.
    for byte in grid {
        sum = step(sum, *byte);
    }
    sum
}

fn step(sum: u64, byte: u8) -> u64
    requires { sum < 36_028_797_018_963_913 }
    ensures { result < 36_028_797_018_963_913 }
{
    (sum * 257 + u64::from(byte) + 1) % MODULUS
}

// Whether a grid is the one that a record shows, if it shows one.
pub fn as_shown(grid: &[u8], shown: &[u8]) -> bool {
    shown.is_empty() || grid == shown
}
