// Which sketch a store of unknown origin holds, and how long a grid is to be lent for a load of it. Blocks, header and length are
// judged as a load judges them; no cell is.
#![tactic(auto)]

ghost use Rattle.std.specs.Prelude.{◌≡◌};
ghost use Rattle.store_shape.specs.Shape.{shaped, shapeless, shape_call};

use refusal::Verdict;
use sketch::MicroCm;
use store_header::{Header, fields};
use store_judging::judge;

// What a store says of its sketch; all 0 if refused.
#[derive(Clone, Copy)]
pub struct ShapeAnswer {
    pub verdict: Verdict,
    pub rows: usize,
    pub cols: usize,
    pub t: usize,
    pub c: u32,
    pub grid_bytes: usize,
}

fn turned_back(verdict: Verdict) -> ShapeAnswer
    ensures { result ≡ shapeless verdict }
{
    ShapeAnswer {
        verdict,
        rows: 0,
        cols: 0,
        t: 0,
        c: 0,
        grid_bytes: 0,
    }
}

fn told(sketch: MicroCm, grid_bytes: usize) -> ShapeAnswer
    ensures { result ≡ shaped sketch grid_bytes }
{
    let params = sketch.params;
    ShapeAnswer {
        verdict: Verdict::Accepted,
        rows: sketch.rows,
        cols: sketch.cols,
        t: params.t,
        c: params.c,
        grid_bytes,
    }
}

pub fn shape(store: &[u8]) -> ShapeAnswer
    ensures { result ≡ shape_call store.now }
{
    let whole = judge::whole(store);
    if !whole.accepted() {
        return turned_back(whole);
    }
    let header = fields::header_in(&store[4..508]);
    let Header::Sketch(sketch) = header else {
        return turned_back(Verdict::Refused(header.number()));
    };
    let size = judge::grid_bytes(sketch);
    if store.len() != judge::store_bytes(size) {
        return turned_back(Verdict::Refused(16));
    }
    told(sketch, size)
}
