// A sketch into a file and back, as a block store.
use bench_tool_sketches::line::Line;
use bench_tool_sketches::slots::{LIMIT, Place, View};
use bench_tool_sketches::trouble::Trouble;
use bench_tool_sketches::{fresh, verdicts};
use cell::MicroParams;
use program_text::files::Unread;
use program_text::{fields, files};
use std::rt::Files;

pub fn save<'l, R: Files + Print + Alloc>(
    rt: &R,
    line: Line<'l>,
    view: View<'_>,
    room: &mut [u8],
) -> Result<(), Trouble<'l>> {
    let answer = store_calls::store_length(view.sketch);
    let length = answer.length.min(room.len());
    let store = &mut room[..length];
    verdicts::accepted(store_calls::save(store, view.sketch, view.grid))?;
    let name = line.word(2);
    if files::write(rt, name, &store[..]).is_err() {
        return Err(Trouble::Unwritable(name));
    }
    println!(rt; "ok bytes={length}")?;
    Ok(())
}

// The grid bytes that a store's header asks for, and 0 where that is past what is held here: the load judges the rest.
fn size_in(store: &[u8]) -> usize {
    let params = MicroParams {
        t: fields::u32_at(store, 16) as usize,
        c: fields::u32_at(store, 20),
    };
    let rows = fields::u32_at(store, 8) as usize;
    let cols = fields::u32_at(store, 12) as usize;
    let size = fresh::size(rows, cols, params);
    if size > LIMIT {
        return 0;
    }
    size
}

pub fn load<'l, R: Files + Print + Alloc>(
    rt: &R,
    line: Line<'l>,
    mut place: Place<'_>,
    room: &mut [u8],
) -> Result<(), Trouble<'l>> {
    let name = line.word(2);
    let store = files::read_whole(rt, name, room).map_err(|unread| match unread {
        Unread::TooLong => Trouble::LargeFile(name),
        Unread::Failed => Trouble::Unreadable(name),
    })?;
    let size = size_in(store);
    let answer = service::load(place.room(size), store);
    verdicts::accepted(answer.verdict)?;
    place.hold(answer.service, size);
    let sketch = answer.service.sketch;
    let now = clock_calls::n(sketch.clock);
    println!(rt; "ok rows={} cols={} n={}", sketch.rows, sketch.cols, now.n)?;
    Ok(())
}
