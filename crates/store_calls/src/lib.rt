// Document 01, "Audit and block store": the calls that save and load a sketch and its grid.
#![tactic(auto)]

ghost use Rattle.std.specs.Prelude.{◌≡◌, length};
ghost use Rattle.sketch.specs.Refusals.{sketch_outcome, undrawn, no_sketch};
ghost use Rattle.sketch.specs.Sketch.{grid_bytes};
ghost use Rattle.store.specs.Store.{store_length, store_of};
ghost use Rattle.store.specs.Refusals.{length_call, save_outcome, save_call, load_call};

use refusal::Verdict;
use sketch::{MicroCm, SketchAnswer};
use sketch_judging::answer;
use store::LengthAnswer;
use store_blocks::{block, chain};
use store_header::{Header, fields};
use store_judging::judge;

// How many bytes to lend for a save.
pub fn store_length(sketch: MicroCm) -> LengthAnswer
    ensures { result ≡ length_call sketch }
{
    let verdict = sketch_judging::judge::numbers(sketch);
    if !verdict.accepted() {
        return LengthAnswer { verdict, length: 0 };
    }
    let size = judge::grid_bytes(sketch);
    let length = judge::store_bytes(size);
    LengthAnswer { verdict, length }
}

fn write(store: &mut [u8], sketch: MicroCm, grid: &[u8])
    requires { (length store.old ≡ store_length sketch) × (length grid.now ≡ grid_bytes sketch) }
    ensures { store.new ≡ store_of sketch grid.now }
{
    let mut header = [0u8; 56];
    fields::write_header(&mut header, sketch);
    block::write_block(&mut store[0..512], 0, &header);
    chain::write_blocks(&mut store[512..], grid);
}

// The sketch and its grid into a store of exactly `store_length` bytes: the whole of it is written, or no byte.
pub fn save(store: &mut [u8], sketch: MicroCm, grid: &[u8]) -> Verdict
    ensures { save_outcome result store.new ≡ save_call sketch grid.now store.old }
{
    let verdict = sketch_judging::judge::sketch(sketch, grid);
    if !verdict.accepted() {
        return verdict;
    }
    let cells = sketch_judging::judge::all_cells(sketch, grid);
    if !cells.accepted() {
        return cells;
    }
    let size = judge::grid_bytes(sketch);
    if store.len() != judge::store_bytes(size) {
        return Verdict::Refused(16);
    }
    write(store, sketch, grid);
    Verdict::Accepted
}

// A refused load gives in place of a sketch one that every call refuses.
fn turned_back(verdict: Verdict) -> SketchAnswer
    ensures { result ≡ undrawn verdict no_sketch }
{
    answer::undrawn(verdict, answer::no_sketch())
}

// The grid of a store into the lent one, and the sketch that goes with it. Every byte is judged before the first is written,
// so a refused load loses nothing. To the one who holds the file 16 says that it was cut or is too long, 17 that a block is
// damaged or out of its place, 18 that it is of another form, 1 to 5 and 14 that no sketch of ours wrote it, and 6 that the
// lent grid has another size than the stored one.
pub fn load(grid: &mut [u8], store: &[u8]) -> SketchAnswer
    ensures { sketch_outcome result grid.new ≡ load_call grid.old store.now }
{
    let whole = judge::whole(store);
    if !whole.accepted() {
        return turned_back(whole);
    }
    let header = fields::header_in(&store[4..508]);
    let Header::Sketch(sketch) = header else {
        return turned_back(Verdict::Refused(header.number()));
    };
    let verdict = judge::behind_header(sketch, &grid[..], store);
    if !verdict.accepted() {
        return turned_back(verdict);
    }
    chain::copy_out(grid, store, 0);
    answer::undrawn(verdict, sketch)
}
