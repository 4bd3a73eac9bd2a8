// The card of zoom ceilings (document 02, T-03), as the core gives it, in the card's words.
use std::io;

// 0 of a number that is no base.
fn ceiling(c: u32) -> u8 {
    let answer = cell_reading::max_zoom(c);
    answer.zoom
}

fn line(rt: &impl Print, first: u32, last: u32) -> io::Result<()> {
    let zoom = ceiling(last);
    if first == last {
        return println!(rt; "  {first} gives {zoom}");
    }
    println!(rt; "  {first} to {last} give {zoom}")
}

pub fn card(rt: &impl Print) -> io::Result<()> {
    println!(rt; "ok the highest zoom of each base c")?;
    let mut first = 2;
    for c in 2..=256 {
        // A line ends where the next number gives another ceiling, or none.
        if ceiling(c) != ceiling(c + 1) {
            line(rt, first, c)?;
            first = c + 1;
        }
    }
    Ok(())
}
