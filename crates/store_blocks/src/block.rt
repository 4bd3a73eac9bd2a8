// The block of 512 bytes: its number, 504 bytes of payload, and a sum that gives each byte a weight of its own, so that
// no byte can change alone unseen.
ghost use Rattle.std.specs.Prelude.{◌≡◌, ◌≤◌, length};
ghost use Rattle.store_blocks.specs.Blocks.{weighed_from, block_of, block_passes};

use store_bytes::bytes;

// The sum of byte i times i + 1.
pub fn weighed(b: &[u8]) -> u64
    requires { length b.now ≤ 512 }
    ensures { result ≡ weighed_from 0 b.now }
{
    let mut sum: u64 = 0;
    for (i, x) in b.iter().enumerate() {
        sum += u64::from(*x) * (i as u64 + 1);
    }
    sum
}

pub fn write_block(block: &mut [u8], number: u64, payload: &[u8])
    requires { length block.old ≡ 512 }
    ensures { block.new ≡ block_of number payload.now }
{
    bytes::put_number(&mut block[0..4], number);
    bytes::fill(&mut block[4..508], payload);
    let sum = weighed(&block[0..508]);
    bytes::put_number(&mut block[508..512], sum);
}

// Whether a block has this number, and the sum that its body makes.
pub fn passes(block: &[u8], number: u64) -> bool
    requires { length block.now ≡ 512 }
    ensures { result ≡ block_passes number block.now }
{
    bytes::number(&block[0..4]) == number
        && bytes::number(&block[508..512]) == weighed(&block[0..508])
}
