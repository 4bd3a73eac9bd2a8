// The columns and limits of the codes that are watched at a to d.
ghost use Rattle.std.specs.Prelude.{◌≡◌, ◌⊎◌, replicate};

use crate::line::Line;

// Those of one place, of fixed size, as the core keeps them.
#[derive(Clone, Copy)]
pub struct Lists {
    pub columns: [u32; 8192],
    pub limits: [u64; 64],
}

impl Lists {
    fn new() -> Lists
        ensures { result ≡ record { columns = replicate 8192 0; limits = replicate 64 0 } }
    {
        Lists {
            columns: [0; 8192],
            limits: [0; 64],
        }
    }
}

// Those of all. They are lent, and stand in no bench: one that held these 130 KiB would be copied whole, from frame to frame, on
// the way to where it is kept.
#[derive(Clone, Copy)]
pub struct KeptLists {
    a: Lists,
    b: Lists,
    c: Lists,
    d: Lists,
}

impl KeptLists {
    // Nothing was watched yet.
    pub fn new() -> KeptLists
        ensures { let none : Lists = record { columns = replicate 8192 0; limits = replicate 64 0 } in result ≡ record { a = none; b = none; c = none; d = none } }
    {
        KeptLists {
            a: Lists::new(),
            b: Lists::new(),
            c: Lists::new(),
            d: Lists::new(),
        }
    }

    // Those of the place that the line names, as they were left. A line that names none gets those of a: ask once
    // `Bench::place_of` or `Bench::kept_of` has found the place.
    pub fn of(&mut self, line: Line<'_>) -> &mut Lists
        ensures { (result.now ≡ self.old.a) ⊎ (result.now ≡ self.old.b) ⊎ (result.now ≡ self.old.c) ⊎ (result.now ≡ self.old.d) }
    {
        match line.word(1) {
            b"b" => &mut self.b,
            b"c" => &mut self.c,
            b"d" => &mut self.d,
            _ => &mut self.a,
        }
    }
}
