//! A shelf that notes what is to be opened.

ghost use Rattle.std.specs.Prelude.{◌≡◌};

use std::alloc::Global;
use vital_base::{Failed, MemShelf, Name, Shelf};

/// A shelf over files in memory that notes each name that is to be opened, in order, as long as there is memory for it.
#[derive(Drop)]
pub struct NotedShelf {
    pub shelf: MemShelf,
    pub alloc: Global,
    pub names: Vec<Vec<u8>>,
}

impl NotedShelf {
    fn note(&mut self, name: &Name)
        ensures { self.new.shelf ≡ self.old.shelf }
    {
        if let Ok(name) = Vec::from_slice(self.alloc, name.as_slice()) {
            let _ = self.names.push(name);
        }
    }
}

impl Shelf for NotedShelf {
    ghost use Rattle.std.specs.Prelude.{◌≡◌, [], None, Some};
    ghost use Rattle.vital_base.specs.MemShelves.{file_named};

    ghost files = { λ noted. Some (file_named noted.shelf.files) };

    ghost opened = { λ noted. noted.shelf.opened };

    ghost faults = { λ noted. noted.shelf.faults };

    ghost is_steady = { λ noted. noted.shelf.fails ≡ [] };

    ghost history = { λ _. None };

    fn open(&mut self, name: &Name) -> Result<(), Failed> {
        self.note(name);
        self.shelf.open(name)
    }

    fn read(&mut self, piece: &mut [u8]) -> Result<usize, Failed> {
        self.shelf.read(piece)
    }
}
