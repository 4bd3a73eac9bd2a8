// The sketches a to d, and the room that each has for its grid.
ghost use Rattle.std.specs.Prelude.{◌≡◌, length, min, take, IfOk};

use crate::line::Line;
use crate::trouble::Trouble;
use crate::usage::Command;
use codes::Watch;
use service::Service;
use sketch::MicroCm;
use std::alloc::{AllocError, Global};
use std::mem;

// The most bytes that a grid here may have.
pub const LIMIT: usize = 1048576;

#[derive(Clone, Copy)]
pub(crate) enum Name {
    A,
    B,
    C,
    D,
}

impl Name {
    pub(crate) fn from_word(word: &[u8]) -> Option<Name> {
        match word {
            b"a" => Some(Name::A),
            b"b" => Some(Name::B),
            b"c" => Some(Name::C),
            b"d" => Some(Name::D),
            _ => None,
        }
    }
}

// A sketch, its watched codes and the bytes of its grid.
#[derive(Clone, Copy)]
pub struct Slot {
    pub sketch: MicroCm,
    pub watch: Watch,
    pub size: usize,
}

impl Slot {
    // What a fresh start or a load gave, over a grid of so many bytes.
    pub fn of(service: Service, size: usize) -> Slot
        ensures { result ≡ record { sketch = service.sketch; watch = service.watch; size = size } }
    {
        let Service { sketch, watch } = service;
        Slot {
            sketch,
            watch,
            size,
        }
    }
}

// What stands at a to d.
#[derive(Clone, Copy)]
pub struct Shelf {
    a: Option<Slot>,
    b: Option<Slot>,
    c: Option<Slot>,
    d: Option<Slot>,
}

impl Shelf {
    // No sketch stands there yet.
    pub fn new() -> Shelf
        ensures { result ≡ record { a = None; b = None; c = None; d = None } }
    {
        Shelf {
            a: None,
            b: None,
            c: None,
            d: None,
        }
    }
}

// A sketch that is there, and its grid.
#[derive(Drop)]
pub struct Kept<'a> {
    pub slot: &'a mut Slot,
    pub grid: &'a mut [u8],
}

// A sketch that is only looked at.
#[derive(Clone, Copy)]
pub struct View<'a> {
    pub sketch: MicroCm,
    pub grid: &'a [u8],
}

impl<'a> Kept<'a> {
    fn view(self) -> View<'a> {
        let Kept { slot, grid } = self;
        View {
            sketch: slot.sketch,
            grid,
        }
    }
}

// The first bytes of a room.
fn first(room: &mut [u8], size: usize) -> &mut [u8]
    ensures { result.now ≡ take (min size (length room.old)) room.old }
{
    let size = size.min(room.len());
    &mut room[..size]
}

// A place, whether a sketch was made there or not, and its grid.
#[derive(Drop)]
pub struct Place<'a> {
    slot: &'a mut Option<Slot>,
    room: &'a mut Vec<u8>,
}

impl<'a> Place<'a> {
    // The room for a grid of so many bytes.
    pub fn room(&mut self, size: usize) -> &mut [u8]
        ensures { let all = self.old.room.now.items in result.now ≡ take (min size (length all)) all }
    {
        first(self.room, size)
    }

    // The same, lent for as long as the bench is.
    pub fn into_room(self, size: usize) -> &'a mut [u8]
        ensures { let all = self.entry.room.now.items in result.now ≡ take (min size (length all)) all }
    {
        let Place { room, .. } = self;
        first(room, size)
    }

    // Holds what a fresh start or a load gave over that room, in place of what was held before.
    pub fn hold(&mut self, service: Service, size: usize)
        ensures held { self.new.slot.now ≡ Some (record { sketch = service.sketch; watch = service.watch; size = size }) }
        ensures room { self.new.room.now ≡ self.old.room.now }
        ensures same_place { (self.new.slot.ghost_name ≡ self.old.slot.ghost_name) × (self.new.room.ghost_name ≡ self.old.room.ghost_name) }
    {
        *self.slot = Some(Slot::of(service, size));
    }

    // All that stands at the one place against all that stands at the other, which another bench lends.
    pub fn swap(&mut self, other: &mut Place<'_>)
        ensures slots { (self.new.slot.now ≡ other.old.slot.now) × (other.new.slot.now ≡ self.old.slot.now) }
        ensures rooms { (self.new.room.now ≡ other.old.room.now) × (other.new.room.now ≡ self.old.room.now) }
        ensures same_place { (self.new.slot.ghost_name ≡ self.old.slot.ghost_name) × (self.new.room.ghost_name ≡ self.old.room.ghost_name) }
        ensures same_other { (other.new.slot.ghost_name ≡ other.old.slot.ghost_name) × (other.new.room.ghost_name ≡ other.old.room.ghost_name) }
    {
        mem::swap(self.slot, other.slot);
        mem::swap(self.room, other.room);
    }

    // The sketch, if one was made.
    fn kept(self) -> Option<Kept<'a>> {
        let Place { slot, room } = self;
        match slot {
            None => None,
            Some(slot) => {
                let size = slot.size;
                Some(Kept {
                    slot,
                    grid: first(room, size),
                })
            }
        }
    }
}

// The shelf, and the room for the grid of each place on it.
#[derive(Drop)]
pub struct Bench {
    shelf: Shelf,
    a: Vec<u8>,
    b: Vec<u8>,
    c: Vec<u8>,
    d: Vec<u8>,
}

fn room(alloc: Global) -> Result<Vec<u8>, AllocError> {
    vec![in alloc; 0u8; LIMIT]
}

impl Bench {
    // No sketch stands on it yet.
    pub fn new(alloc: Global) -> Result<Bench, AllocError>
        ensures { IfOk result (λ bench. bench.shelf ≡ record { a = None; b = None; c = None; d = None }) }
    {
        Ok(Bench {
            shelf: Shelf::new(),
            a: room(alloc)?,
            b: room(alloc)?,
            c: room(alloc)?,
            d: room(alloc)?,
        })
    }

    pub(crate) fn place(&mut self, name: Name) -> Place<'_> {
        let shelf = &mut self.shelf;
        match name {
            Name::A => Place {
                slot: &mut shelf.a,
                room: &mut self.a,
            },
            Name::B => Place {
                slot: &mut shelf.b,
                room: &mut self.b,
            },
            Name::C => Place {
                slot: &mut shelf.c,
                room: &mut self.c,
            },
            Name::D => Place {
                slot: &mut shelf.d,
                room: &mut self.d,
            },
        }
    }

    // The place that the line names, if it has the words that the command takes.
    pub fn place_of<'l>(
        &mut self,
        command: Command,
        line: Line<'l>,
    ) -> Result<Place<'_>, Trouble<'l>> {
        match line.name(1) {
            Some(name) if command.takes(line.count()) => Ok(self.place(name)),
            _ => Err(Trouble::Usage(command)),
        }
    }

    // The sketch there.
    pub fn kept_of<'l>(
        &mut self,
        command: Command,
        line: Line<'l>,
    ) -> Result<Kept<'_>, Trouble<'l>> {
        let place = self.place_of(command, line)?;
        place.kept().ok_or(Trouble::NoSketch(line.word(1)))
    }

    // The same, to be looked at.
    pub fn view_of<'l>(
        &mut self,
        command: Command,
        line: Line<'l>,
    ) -> Result<View<'_>, Trouble<'l>> {
        let kept = self.kept_of(command, line)?;
        Ok(kept.view())
    }

    // The sketch that the third word names.
    pub(crate) fn other<'l>(&mut self, line: Line<'l>) -> Result<View<'_>, Trouble<'l>> {
        let trouble = Trouble::NoSketch(line.word(2));
        let name = line.name(2).ok_or(trouble)?;
        let kept = self.place(name).kept().ok_or(trouble)?;
        Ok(kept.view())
    }
}
