// The pass over the codes, once everything is judged.
ghost use Rattle.std.specs.Prelude.{◌≡◌, not, cond, ◌&&◌, ◌+◌, ◌^◌, ◌<◌, length};
ghost use Rattle.sketch.specs.Figures.{over_of};
ghost use Rattle.codes.specs.Codes.{code_in, flag_at};
ghost use Rattle.codes_asking.specs.Workers.{Askable, Room, Noted, Told};

use sketch::MicroCm;

// What a pass finds: how many codes it listed, and a bit for each that is at its limit or above.
#[derive(Clone, Copy)]
pub struct Found {
    pub listed: usize,
    pub reached: u64,
}

// The Over figure of a code.
fn code_over(sketch: MicroCm, columns: &[u32], code: usize, grid: &[u8]) -> u64
    requires { Askable sketch columns.now grid.now code }
    ensures { result ≡ over_of sketch grid.now (code_in sketch.rows columns.now code) }
{
    let rows = sketch.rows;
    let start = code * rows;
    let key = &columns[start..start + rows];
    let figures = sketch_reading_figures::worker::estimate(sketch, grid, key, 0.0);
    figures.over
}

// A code goes on the list if it is at its limit now and was below at the asking before.
fn note(list: &mut [u8], listed: usize, code: usize, above: bool, before: u64) -> usize
    requires { (listed < length list.old) × (code < 64) }
    ensures { Noted list.old listed code (above && not (flag_at before code)) list.new result }
{
    if !above || (before >> code) % 2 == 1 {
        return listed;
    }
    list[listed] = code as u8;
    listed + 1
}

fn with_flag(flags: u64, code: usize, above: bool) -> u64
    requires { (code < 64) × (flags < 2 ^ code) }
    ensures { result ≡ flags + cond above (2 ^ code) 0 }
{
    flags + (u64::from(above) << code)
}

pub fn list_new(
    sketch: MicroCm,
    count: usize,
    columns: &[u32],
    limits: &[u64],
    before: u64,
    grid: &[u8],
    list: &mut [u8],
) -> Found
    requires { Room sketch count columns.now limits.now grid.now list.old }
    ensures { Told sketch count columns.now limits.now before grid.now list.old list.new result }
{
    let mut listed: usize = 0;
    let mut reached: u64 = 0;
    for code in 0..count {
        let above = code_over(sketch, columns, code, grid) >= limits[code];
        listed = note(list, listed, code, above, before);
        reached = with_flag(reached, code, above);
    }
    Found { listed, reached }
}
