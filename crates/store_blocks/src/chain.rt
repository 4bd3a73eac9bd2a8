// Blocks one behind another: written, judged, and read as if their payloads were one list.
ghost use Rattle.std.specs.Prelude.{◌≡◌, ◌+◌, ◌-◌, ◌*◌, ◌/◌, ◌<◌, ◌≤◌, length, drop};
ghost use Rattle.laws.specs.Parts.{part};
ghost use Rattle.store_bytes.specs.Fill.{all_zero};
ghost use Rattle.store_blocks.specs.Workers.{InBlock};
ghost use Rattle.store_blocks.specs.Blocks.{blocks_from, blocks_pass, carried};

use crate::block;
use store_bytes::bytes;

// The grid in blocks from number 1 on. A block takes what it has room for of all that is left, and fills up with zeros.
pub fn write_blocks(blocks: &mut [u8], grid: &[u8])
    requires { length blocks.old ≡ 512 * ((length grid.now + 503) / 504) }
    ensures { blocks.new ≡ blocks_from 1 (length blocks.old / 512) grid.now }
{
    // By place: of what is written through the pieces of `chunks_mut` the proof knows no byte once they are given back.
    for i in 0..blocks.len() / 512 {
        let start = i * 512;
        block::write_block(
            &mut blocks[start..start + 512],
            i as u64 + 1,
            &grid[i * 504..],
        );
    }
}

// Whether every block passes, numbered from 0.
pub fn all_pass(store: &[u8]) -> bool
    ensures { result ≡ blocks_pass 0 (length store.now / 512) store.now }
{
    store
        .chunks_exact(512)
        .enumerate()
        .all(|(i, block)| block::passes(block, i as u64))
}

// How many of the `left` bytes from byte j on stand in the block that carries byte j.
fn in_block(j: usize, left: usize) -> usize
    requires { 0 < left }
    ensures { InBlock j left result }
{
    left.min(504 - j % 504)
}

// What the blocks from 1 on carry, from `at` on, as far as there is room: block by block, since each has its number and its
// sum between its bytes and the next one's.
pub fn copy_out(out: &mut [u8], store: &[u8], at: usize)
    requires { at + length out.old ≤ 504 * (length store.now / 512 - 1) }
    ensures { out.new ≡ part at (length out.old) (carried store.now) }
{
    // Steps of two lengths, the first up to the end of the block that carries `at`: a `for` over blocks would need both ends
    // of each piece, and of what is written through `chunks_mut` the proof knows no byte.
    let mut i: usize = 0;
    while i < out.len() {
        let j = at + i;
        let start = j + j / 504 * 8 + 516;
        let size = in_block(j, out.len() - i);
        bytes::copy(&mut out[i..i + size], &store[start..start + size]);
        i += size;
    }
}

// Whether only zeros stand behind the grid's bytes: they end in the last block.
pub fn fill_clear(store: &[u8], size: usize) -> bool
    requires { (0 < size) × (length store.now ≡ 512 * (1 + (size + 503) / 504)) }
    ensures { result ≡ all_zero (drop size (carried store.now)) }
{
    let last = size - 1;
    let start = last + last / 504 * 8 + 517;
    let end = store.len() - 4;
    bytes::zeros(&store[start..end])
}
