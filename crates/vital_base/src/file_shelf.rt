ghost use Rattle.std.specs.Prelude.{◌≡◌, false};

use crate::bytes::Name;
use crate::failed::Failed;
use crate::shelf::Shelf;
use std::fs;
use std::io::Read;
use std::marker::Model;
use std::rt::Files;

/// The files of the system, of which nothing is told or steady. A name that is not UTF-8, and an error of opening or of
/// reading, an interrupted call among them, are faults.
#[derive(Drop)]
pub struct FileShelf<R: Files> {
    runtime: R,
    file: Option<R::File>,
    faults: u64,
}

impl<R: Files> Model for FileShelf<R> {
    ghost use Rattle.std.specs.Prelude.{is_some};
    ghost use Rattle.vital_base.specs.FileShelves.{FileShelfState};

    ghost Value = { FileShelfState };

    ghost view = { λ s. record {
      is_open = is_some s.file;
      faults = s.faults;
    } };
}

impl<R: Files> FileShelf<R> {
    /// The files that this runtime opens. No file is open, and no fault is counted.
    pub fn new(runtime: R) -> FileShelf<R>
        ensures { result ≡ record { is_open = false; faults = 0 } }
    {
        FileShelf {
            runtime,
            file: None,
            faults: 0,
        }
    }
}

/// The file of this name, opened at its start; None where that fails.
fn opened<R: Files>(runtime: &R, name: &Name) -> Option<R::File> {
    let path = str::from_utf8(name.as_slice()).ok()?;
    fs::open(runtime, path).ok()
}

impl<R: Files> Shelf for FileShelf<R> {
    ghost use Rattle.std.specs.Prelude.{[], None, Some, if◌then◌else◌};

    ghost files = { λ _. None };

    // An open file is only known to be open: what is left of it is not told.
    ghost opened = { λ shelf. if shelf.is_open then Some [] else None };

    ghost faults = { λ shelf. shelf.faults };

    ghost is_steady = { λ _. ⊥ };

    ghost history = { λ _. None };

    fn open(&mut self, name: &Name) -> Result<(), Failed> {
        self.file = opened(&self.runtime, name);
        match self.file {
            Some(_) => Ok(()),
            None => Err(Failed::count(&mut self.faults)),
        }
    }

    fn read(&mut self, piece: &mut [u8]) -> Result<usize, Failed> {
        let Some(file) = &mut self.file else {
            return Err(Failed::count(&mut self.faults));
        };
        match file.read(piece) {
            Ok(count) => Ok(count),
            Err(_) => Err(Failed::count(&mut self.faults)),
        }
    }
}
