// Numbers in bytes, the lowest byte first, zero fill, and the test for zeros: over lent parts of any length.
ghost use Rattle.std.specs.Prelude.{◌≡◌, ◌^◌, ◌<◌, ◌≤◌, length, take};
ghost use Rattle.laws.specs.Bytes.{number_of, bytes_of};
ghost use Rattle.store_bytes.specs.Fill.{filled, all_zero};

// As many of the number's lowest bytes as there is room for.
pub fn put_number(b: &mut [u8], n: u64)
    ensures { b.new ≡ bytes_of (length b.old) n }
{
    fill(b, &n.to_le_bytes());
}

// The number whose bytes these are.
pub fn number(b: &[u8]) -> u64
    requires { length b.now ≤ 8 }
    ensures value { result ≡ number_of b.now }
    ensures upper_bound { result < 256 ^ length b.now }
{
    let mut all = [0u8; 8];
    fill(&mut all, b);
    u64::from_le_bytes(all)
}

// The first bytes of `from`, as many as there is room for. A loop, and no `copy_from_slice`: that one asks the platform for
// memmove, and the library for C needs memcpy and memset alone (docs/EDGE.md).
pub fn copy(b: &mut [u8], from: &[u8])
    requires { length b.old ≤ length from.now }
    ensures { b.new ≡ take (length b.old) from.now }
{
    for (i, byte) in b.iter_mut().enumerate() {
        *byte = from[i];
    }
}

// The bytes of `from`, as many as there is room for, and zeros behind them.
pub fn fill(b: &mut [u8], from: &[u8])
    ensures { b.new ≡ filled (length b.old) from.now }
{
    let end = from.len().min(b.len());
    copy(&mut b[..end], from);
    b[end..].fill(0);
}

// Whether every byte is 0.
pub fn zeros(b: &[u8]) -> bool
    ensures { result ≡ all_zero b.now }
{
    b.iter().all(|x| *x == 0)
}
