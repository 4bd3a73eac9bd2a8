// The exports of edge::stores: the calls on a store.
ghost use Rattle.std.specs.Prelude.{◌≡◌};
ghost use Rattle.edge_values.specs.Edge.{started, loaded, valued, told, saved};
ghost use Rattle.edge.specs.Calls.{store_length_told, saved_as, loaded_from, shape_told};

#[unsafe(no_mangle)]
pub extern "C" fn microscope_store_length(sketch: &[u64; 9], length: &mut u64) -> u64
    ensures { valued result length.new ≡ store_length_told sketch.now }
{
    edge::stores::microscope_store_length(sketch, length)
}

#[unsafe(no_mangle)]
pub extern "C" fn microscope_save(
    sketch: &[u64; 9],
    grid: &[u8],
    store: &mut [u8],
    index: &mut u64,
) -> u64
    ensures { saved result store.new index.new
        ≡ saved_as sketch.now grid.now store.old }
{
    edge::stores::microscope_save(sketch, grid, store, index)
}

#[unsafe(no_mangle)]
pub extern "C" fn microscope_load(
    sketch: &mut [u64; 9],
    watch: &mut [u64; 3],
    grid: &mut [u8],
    store: &[u8],
    index: &mut u64,
) -> u64
    ensures { loaded (started result sketch.new watch.new grid.new) index.new
        ≡ loaded_from sketch.old watch.old grid.old store.now }
{
    edge::stores::microscope_load(sketch, watch, grid, store, index)
}

#[unsafe(no_mangle)]
pub extern "C" fn microscope_store_shape(store: &[u8], shape: &mut [u64; 5]) -> u64
    ensures { told result shape.new ≡ shape_told store.now }
{
    edge::stores::microscope_store_shape(store, shape)
}
