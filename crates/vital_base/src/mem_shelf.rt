ghost use Rattle.std.specs.Prelude.{◌≡◌, ◌<◌, ◌≤◌, ◌+◌, ◌^◌, ◌↔◌, ◌⊎◌, [], length, position, take, drop, min, Contains, None, Some, IsSome, IfSome, IfOk, OnOk, OnErr, IsErr};
ghost use Rattle.std.specs.Str.{bytes_eq};
ghost use Rattle.vital_base.specs.Faults.{counted};
ghost use Rattle.vital_base.specs.MemShelves.{file_named, left_of};
ghost use Rattle.vital_base.specs.Shelves.{TakesNext};

use crate::bytes::{Bytes, Name};
use crate::failed::{Failed, is_listed};
use crate::list::List;
use crate::shelf::Shelf;
use std::marker::Model;

/// A file in memory: its name, and its bytes.
#[derive(Drop)]
pub struct MemFile {
    pub name: Name,
    pub bytes: Bytes,
}

/// Which file is open, and how many of its bytes were read.
#[derive(Clone, Copy)]
struct OpenFile {
    index: usize,
    read: usize,
}

/// A shelf over files in memory, which it tells. Its calls fail where it is told to.
#[derive(Drop)]
pub struct MemShelf {
    files: List<MemFile>,
    piece: u32,
    fails: List<u32>,
    calls: u64,
    faults: u64,
    place: Option<OpenFile>,
}

impl Model for MemShelf {
    ghost use Rattle.std.specs.Prelude.{◌≤◌};
    ghost use Rattle.std.specs.Option.{option_map};
    ghost use Rattle.vital_base.specs.MemShelves.{MemShelfState, left_of};

    ghost Value = { MemShelfState };

    ghost view = { λ s. record {
      files = s.files;
      piece = s.piece;
      fails = s.fails;
      calls = s.calls;
      faults = s.faults;
      opened = option_map (left_of s.files) s.place;
    } };

    ghost invariant = { λ s. 1 ≤ s.piece };
}

impl MemShelf {
    /// A shelf of these files, of which the first of a name is meant. A read takes at most `piece` bytes, and the calls of
    /// `open` and `read` with the numbers `fails`, counted together from 1, fail. It is steady exactly where none are listed.
    /// No file is open. It takes no memory.
    pub fn new(files: List<MemFile>, piece: u32, fails: List<u32>) -> MemShelf
        requires { 1 ≤ piece }
        ensures { result ≡ record { files = files; piece = piece; fails = fails; calls = 0; faults = 0; opened = None } }
    {
        MemShelf {
            files,
            piece,
            fails,
            calls: 0,
            faults: 0,
            place: None,
        }
    }
}

/// The number of the first file of this name.
fn index_of(files: &[MemFile], name: &[u8]) -> Option<usize>
    ensures { result ≡ position (λ file. bytes_eq file.name name.now) files.now }
{
    files.iter().position(|file| file.name.as_slice() == name)
}

/// What is left of an open file.
fn left_of<'a>(files: &'a [MemFile], place: OpenFile) -> &'a [u8]
    ensures left { result.now ≡ left_of files.now place }
    ensures fits { place.read + length result.now < 2 ^ 64 }
{
    match files.get(place.index) {
        Some(file) => file.bytes.as_slice().get(place.read..).unwrap_or(&[]),
        None => &[],
    }
}

/// Copies as many of the bytes that are left as fit into the piece, at most `most`, and says how many.
fn copy_front(left: &[u8], piece: &mut [u8], most: usize) -> usize
    ensures count { result ≡ min (min (length left.now) (length piece.old)) most }
    ensures copied { take result piece.new ≡ take result left.now }
{
    let count = left.len().min(piece.len()).min(most);
    piece[..count].copy_from_slice(&left[..count]);
    count
}

impl Shelf for MemShelf {
    ghost use Rattle.std.specs.Prelude.{◌≡◌, [], None, Some};
    ghost use Rattle.vital_base.specs.MemShelves.{file_named};

    ghost files = { λ shelf. Some (file_named shelf.files) };

    ghost opened = { λ shelf. shelf.opened };

    ghost faults = { λ shelf. shelf.faults };

    ghost is_steady = { λ shelf. shelf.fails ≡ [] };

    ghost history = { λ _. None };

    fn open(&mut self, name: &Name) -> Result<(), Failed>
        ensures fails { IsErr result
            ↔ (Contains self.old.fails (counted self.old.calls) ⊎ (file_named self.old.files name.now ≡ None)) }
        ensures ok_is_there { OnOk result (IsSome (file_named self.old.files name.now)) }
        ensures ok_opens { OnOk result (self.new ≡ record self.old {
          calls = counted self.old.calls;
          opened = file_named self.old.files name.now;
        }) }
        ensures err_counts { OnErr result (self.new ≡ record self.old {
          calls = counted self.old.calls;
          faults = counted self.old.faults;
          opened = None;
        }) }
    {
        self.calls = self.calls.saturating_add(1);
        self.place = None;
        if is_listed(self.fails.as_slice(), self.calls) {
            return Err(Failed::count(&mut self.faults));
        }
        let files = self.files.as_slice();
        let bytes = name.as_slice();
        match index_of(files, bytes) {
            None => Err(Failed::count(&mut self.faults)),
            Some(index) => {
                self.place = Some(OpenFile { index, read: 0 });
                Ok(())
            }
        }
    }

    fn read(&mut self, piece: &mut [u8]) -> Result<usize, Failed>
        requires { 0 < length piece.old }
        ensures fails { IsErr result
            ↔ (Contains self.old.fails (counted self.old.calls) ⊎ (self.old.opened ≡ None)) }
        ensures ok_takes { IfOk result (λ count. IfSome self.old.opened (λ left.
            count ≡ min (min (length left) (length piece.old)) self.old.piece)) }
        ensures ok_within { IfOk result (λ count. count ≤ length piece.new) }
        ensures ok_takes_next { IfOk result (λ count. TakesNext count piece.new self.old.opened self.new.opened) }
        ensures ok_takes_none_at_end { IfOk result (λ count. count ≡ 0 → self.old.opened ≡ Some []) }
        ensures ok_keeps { OnOk result (self.new ≡ record self.old {
          calls = counted self.old.calls;
          opened = self.new.opened;
        }) }
        ensures err_counts { OnErr result (self.new ≡ record self.old {
          calls = counted self.old.calls;
          faults = counted self.old.faults;
        }) }
    {
        self.calls = self.calls.saturating_add(1);
        if is_listed(self.fails.as_slice(), self.calls) {
            return Err(Failed::count(&mut self.faults));
        }
        let Some(place) = self.place else {
            return Err(Failed::count(&mut self.faults));
        };
        let files = self.files.as_slice();
        let left = left_of(files, place);
        let taken = copy_front(left, piece, self.piece as usize);
        self.place = Some(OpenFile {
            index: place.index,
            read: place.read + taken,
        });
        Ok(taken)
    }
}
