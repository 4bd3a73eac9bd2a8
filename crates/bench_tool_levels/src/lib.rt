// Document 02, T-11, for the bench tool's picture of a cell: how far it zooms in at a crossing.
#![tactic(auto)]

ghost use Rattle.std.specs.Prelude.{◌≡◌, cond, ◌-◌, ◌≤◌, max, eqb, length};
ghost use Rattle.laws.specs.Sums.{largest};
ghost use Rattle.cell.specs.Cell.{pixel_of, with_pixel};
ghost use Rattle.cell.specs.ZoomIn.{levels_up_to};

// k: the largest number of levels, up to the zoom, by which the largest pixel still fits a byte.
pub fn levels(c: u32, most: u8, zoom: u8) -> u8
    ensures { (result ≡ levels_up_to c most zoom) × (result ≤ zoom) }
{
    let base = u64::from(c);
    let mut grown = u64::from(most);
    for k in 0..zoom {
        grown *= base;
        if grown > 255 {
            return k;
        }
    }
    zoom
}

// The largest of these pixels once one of them is cleared; of none, 0.
pub fn largest_left(pixels: &[u8], cleared: usize) -> u8
    ensures { result ≡ largest (length pixels.now - 1) (pixel_of (with_pixel cleared 0 pixels.now)) }
{
    let mut most: u8 = 0;
    for (slot, pixel) in pixels.iter().enumerate() {
        let held = if slot == cleared { 0 } else { *pixel };
        most = most.max(held);
    }
    most
}
