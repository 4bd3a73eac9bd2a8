// Where a cell's fields stand, and how each is read and written: no other file knows an offset.
ghost use Rattle.std.specs.Prelude.{◌≡◌, ◌+◌, ◌<◌, ◌≤◌, length, replicate};
ghost use Rattle.cell.specs.Cell.{pixels_of, depth_of, slot_of, zoom_of, shutter_of, with_zoom, with_shutter};
ghost use Rattle.cell.specs.Refusals.{layout_of};

use cell::{MicroLayout, MicroParams};

// The number of pixels.
pub fn pixels(t: usize) -> usize
    requires { t ≤ 4096 }
    ensures { result ≡ pixels_of t }
{
    t + 2
}

// The bytes of a cell: rounded up, so that the cells of a grid start at multiples of 4.
pub fn depth(t: usize) -> usize
    requires { t ≤ 4096 }
    ensures { result ≡ depth_of t }
{
    (t + 10) / 4 * 4
}

// All places at once.
pub fn derived(params: MicroParams) -> MicroLayout
    requires { (params.t ≤ 4096) × (2 ≤ params.c) }
    ensures { result ≡ layout_of params }
{
    let t = params.t;
    MicroLayout {
        params,
        pixels: pixels(t),
        zoom_at: t + 2,
        shutter_at: t + 3,
        depth: depth(t),
        zoom_in_ceiling: 255 / params.c,
    }
}

// The pixel of sub-window n.
pub fn slot(t: usize, n: u64) -> usize
    requires { t ≤ 4096 }
    ensures { result ≡ slot_of t n }
{
    (n % ((t + 2) as u64)) as usize
}

pub fn zoom(cell: &[u8], t: usize) -> u8
    requires { (t ≤ 4096) × (length cell.now ≡ depth_of t) }
    ensures { result ≡ zoom_of t cell.now }
{
    cell[t + 2]
}

pub fn set_zoom(cell: &mut [u8], t: usize, zoom: u8)
    requires { (t ≤ 4096) × (length cell.old ≡ depth_of t) }
    ensures { cell.new ≡ with_zoom t zoom cell.old }
{
    let at = t + 2;
    cell[at] = zoom;
}

pub fn shutter(cell: &[u8], t: usize) -> u32
    requires { (t ≤ 4096) × (length cell.now ≡ depth_of t) }
    ensures { result ≡ shutter_of t cell.now }
{
    let at = t + 3;
    u32::from_le_bytes([cell[at], cell[at + 1], cell[at + 2], cell[at + 3]])
}

pub fn set_shutter(cell: &mut [u8], t: usize, shutter: u32)
    requires { (t ≤ 4096) × (length cell.old ≡ depth_of t) }
    ensures { cell.new ≡ with_shutter t shutter cell.old }
{
    let at = t + 3;
    cell[at..at + 4].copy_from_slice(&shutter.to_le_bytes());
}

// Every byte becomes 0: a fresh grid, the pixels after a far jump.
pub fn zero_all(bytes: &mut [u8])
    ensures { bytes.new ≡ replicate (length bytes.old) 0 }
{
    bytes.fill(0);
}
