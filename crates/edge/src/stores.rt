// The calls on a store. The buffers are the caller's.
ghost use Rattle.std.specs.Prelude.{◌≡◌};
ghost use Rattle.edge_values.specs.Edge.{started, loaded, valued, told, saved};
ghost use Rattle.edge.specs.Calls.{store_length_told, saved_as, loaded_from, shape_told};

// How many bytes a sketch's store takes.
#[unsafe(no_mangle)]
pub extern "C" fn microscope_store_length(sketch: &[u64; 9], length: &mut u64) -> u64
    ensures { valued result length.new ≡ store_length_told sketch.now }
{
    let core = edge_values::sketch(sketch);
    let answer = store_calls::store_length(core);
    *length = answer.length as u64;
    let verdict = answer.verdict;
    edge_values::number(verdict)
}

// The whole buffer is written; no byte if refused.
#[unsafe(no_mangle)]
pub extern "C" fn microscope_save(
    sketch: &[u64; 9],
    grid: &[u8],
    store: &mut [u8],
    index: &mut u64,
) -> u64
    ensures { saved result store.new index.new
        ≡ saved_as sketch.now grid.now store.old }
{
    let core = edge_values::sketch(sketch);
    let verdict = store_calls::save(store, core, grid);
    edge_answers::indexed(index, verdict)
}

// The sketch of a store, its grid, and no codes; all as it was if refused.
#[unsafe(no_mangle)]
pub extern "C" fn microscope_load(
    sketch: &mut [u64; 9],
    watch: &mut [u64; 3],
    grid: &mut [u8],
    store: &[u8],
    index: &mut u64,
) -> u64
    ensures { loaded (started result sketch.new watch.new grid.new) index.new
        ≡ loaded_from sketch.old watch.old grid.old store.now }
{
    let answer = service::load(grid, store);
    edge_answers::loaded(sketch, watch, index, answer)
}

// Which sketch a store of unknown origin holds, and how long a grid to lend for a load of it.
#[unsafe(no_mangle)]
pub extern "C" fn microscope_store_shape(store: &[u8], shape: &mut [u64; 5]) -> u64
    ensures { told result shape.new ≡ shape_told store.now }
{
    let answer = store_shape::shape(store);
    edge_answers::shaped(shape, answer)
}
