// Powers of the zoom base: what a pixel is worth, and how far a cell can zoom out.
ghost use Rattle.std.specs.Prelude.{◌≡◌, ◌-◌, ◌^◌, ◌≤◌};
ghost use Rattle.cell.specs.Cell.{max_zoom};
ghost use Rattle.cell.specs.Workers.{unit_or_zero};

// c^z, which the caller knows to fit four bytes. 2 is the usual base: its powers are spared the loop.
pub fn unit(c: u32, z: u8) -> u64
    requires { (2 ≤ c) × (c ≤ 256) × (c ^ z ≤ 2 ^ 32 - 1) }
    ensures { result ≡ c ^ z }
{
    if c == 2 {
        return 1 << z;
    }
    u64::from(c).pow(u32::from(z))
}

// c^z, and 0 where z is above max_zoom: no shutter is below that, so one comparison tells whether a cell is sound.
pub fn unit_or_zero(c: u32, z: u8) -> u64
    requires { (2 ≤ c) × (c ≤ 256) }
    ensures { result ≡ unit_or_zero c z }
{
    if c == 2 {
        return if z <= 31 { unit(2, z) } else { 0 };
    }
    // A loop of its own: `checked_pow` divides, and a test against `max_zoom` is a jump through a table, for each cell judged.
    let mut power: u64 = 1;
    for _ in 0..z {
        power *= u64::from(c);
        if power > 0xFFFF_FFFF {
            return 0;
        }
    }
    power
}

// The largest z with c^z at most 2^32 - 1, as the card has it (document 02, T-03). No other base comes here: it is refused by
// 2 before.
pub fn max_zoom(c: u32) -> u8
    requires { (2 ≤ c) × (c ≤ 256) }
    ensures { result ≡ max_zoom c }
{
    match c {
        2 => 31,
        3 => 20,
        4 => 15,
        5 => 13,
        6 => 12,
        7 => 11,
        8..=9 => 10,
        10..=11 => 9,
        12..=15 => 8,
        16..=23 => 7,
        24..=40 => 6,
        41..=84 => 5,
        85..=255 => 4,
        256 => 3,
        _ => unreachable!(),
    }
}
