//! Loading the files of a run.

ghost use Rattle.std.specs.Prelude.{◌≡◌, ◌≢◌, ◌≤◌, ℕ, length, All, IfOk, OnOk, IfSome, Err};
ghost use Rattle.vital_base.specs.Faults.{Rose};
ghost use Rattle.vital_answers.specs.Answer.{not_there};
ghost use Rattle.vital_answers.specs.Loading.{Opens, all_loaded};
ghost use Rattle.vital_answers.specs.Given.{GivesSources};
ghost use Rattle.vital_answers.specs.declared.loading.NotLoaded.TheVariants.{NoMemory};

use std::alloc::{AllocFailed, Global};
use vital_base::{Bytes, List, LoadError, Name, Shelf, read_file};
use vital_words::{FileKind, NamedFile};

/// A file that was loaded.
#[derive(Drop)]
pub struct Source {
    /// What it is read as.
    pub kind: FileKind,
    /// Its bytes.
    pub text: Bytes,
}

/// Why files were not loaded.
#[derive(Clone, Copy)]
pub enum NotLoaded<'a> {
    /// The shelf failed.
    ReadFault,
    /// The file of this name is too long.
    TooLong(&'a Name),
    /// Memory ran out.
    NoMemory,
}

impl<T: Drop> From<AllocFailed<T>> for NotLoaded<'_> {
    ghost from_gives = { λ _ e. e ≡ NoMemory };

    fn from(_error: AllocFailed<T>) -> Self {
        NotLoaded::NoMemory
    }
}

/// Loads these files, in order; or answers the first fault, or the first file that is too long.
pub fn load_files<'a, S: Shelf>(
    alloc: Global,
    files: &'a [NamedFile],
    shelf: &mut S,
) -> Result<List<Source>, NotLoaded<'a>>
    ensures loaded { IfSome (S.files shelf.old) (λ told. GivesSources result (all_loaded told files.now)) }
    ensures within { IfOk result (All (λ source. length source.text ≤ 16_777_216)) }
    ensures count { IfOk result (λ sources. length sources ≡ length files.now) }

    // The first so many of the files are opened, in order and each once, and nothing else; all where all are loaded.
    ensures opens { (count : ℕ) × Opens files.now count (S.history shelf.old) (S.history shelf.new) }
    ensures ok_opens_all { OnOk result (Opens files.now (length files.now) (S.history shelf.old) (S.history shelf.new)) }

    ensures read_fault_rose { result ≡ Err NotLoaded.ReadFault → Rose (S.faults shelf.old) (S.faults shelf.new) }
    ensures read_fault_is_missing { result ≡ Err NotLoaded.ReadFault → S.is_steady shelf.old
        → IfSome (S.files shelf.old) (λ told. all_loaded told files.now ≡ Err not_there) }
    ensures other_leaves_count { result ≢ Err NotLoaded.ReadFault → S.faults shelf.new ≡ S.faults shelf.old }
    ensures never_falls { S.faults shelf.old ≤ S.faults shelf.new }
{
    let mut sources = Vec::new(alloc);
    for file in files {
        match read_file(alloc, shelf, &file.name) {
            Ok(text) => sources.push(Source {
                kind: file.kind,
                text,
            })?,
            Err(LoadError::ReadFault) => return Err(NotLoaded::ReadFault),
            Err(LoadError::TooLong) => return Err(NotLoaded::TooLong(&file.name)),
            Err(LoadError::NoMemory) => return Err(NotLoaded::NoMemory),
        }
    }
    Ok(List::new(sources))
}
