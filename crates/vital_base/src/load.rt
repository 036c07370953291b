ghost use Rattle.std.specs.Prelude.{◌≡◌, ◌≢◌, ◌<◌, ◌≤◌, length, None, Some, IfOk, IsErrOf, IfSome, IsSomeAnd};
ghost use Rattle.vital_base.specs.Faults.{Rose};
ghost use Rattle.vital_base.specs.Shelves.{LoadsOne};

use crate::bytes::{Bytes, Name};
use crate::failed::Failed;
use crate::shelf::Shelf;
use std::alloc::{AllocError, Global};
use thiserror::Error;

/// The greatest length of a file, in bytes.
pub const LONGEST_FILE: usize = 16_777_216;

/// How many bytes of a file are asked for at once.
const PIECE: usize = 8_192;

/// Why a file was not loaded.
#[derive(Clone, Copy, Debug, PartialEq, Eq, Error)]
pub enum LoadError {
    /// The shelf failed, and its count of faults rose. Over a steady shelf the name is not there.
    #[error("reading failed")]
    ReadFault,
    /// The file has more than [`LONGEST_FILE`] bytes.
    #[error("the file is too long")]
    TooLong,
    /// Memory ran out.
    #[error("out of memory")]
    NoMemory,
}

impl From<Failed> for LoadError {
    ghost use Rattle.std.specs.Prelude.{◌≡◌};
    ghost use Rattle.vital_base.specs.declared.load.LoadError.TheVariants.{ReadFault};

    ghost from_gives = { λ _ error. error ≡ ReadFault };

    fn from(_failed: Failed) -> LoadError {
        LoadError::ReadFault
    }
}

impl From<AllocError> for LoadError {
    ghost use Rattle.std.specs.Prelude.{◌≡◌};
    ghost use Rattle.vital_base.specs.declared.load.LoadError.TheVariants.{NoMemory};

    ghost from_gives = { λ _ error. error ≡ NoMemory };

    fn from(_error: AllocError) -> LoadError {
        LoadError::NoMemory
    }
}

/// All bytes of the file of this name.
///
/// The shelf opens it at its start, in place of a file that was open, before any memory is taken. Each read but the last
/// takes one or more bytes, and the reading ends with the first byte too many, or with the end. What is left of the file
/// after the call is not told: the next call opens its own.
pub fn read_file<S: Shelf>(alloc: Global, shelf: &mut S, name: &Name) -> Result<Bytes, LoadError>
    ensures keeps_files { S.files shelf.new ≡ S.files shelf.old }
    ensures stays_steady { S.is_steady shelf.old → S.is_steady shelf.new }
    ensures never_falls { S.faults shelf.old ≤ S.faults shelf.new }

    // No other name is opened, at most 16,777,217 reads succeed, and none of them comes after the end.
    ensures loads_one { LoadsOne name.now (S.history shelf.old) (S.history shelf.new) }

    ensures ok_whole { IfOk result (λ bytes. IfSome (S.files shelf.old) (λ told. told name.now ≡ Some bytes)) }
    ensures ok_within { IfOk result (λ bytes. length bytes ≤ 16_777_216) }

    // A fault comes only where the count rose, and over a steady shelf only where the name is not there.
    ensures fault_rose { IsErrOf result LoadError.ReadFault → Rose (S.faults shelf.old) (S.faults shelf.new) }
    ensures fault_is_missing { IsErrOf result LoadError.ReadFault → S.is_steady shelf.old
        → IfSome (S.files shelf.old) (λ told. told name.now ≡ None) }
    ensures missing_is_fault { IfSome (S.files shelf.old) (λ told.
        told name.now ≡ None → IsErrOf result LoadError.ReadFault) }
    ensures other_leaves_count { result ≢ Err LoadError.ReadFault
        → S.faults shelf.new ≡ S.faults shelf.old }

    ensures too_long { IsErrOf result LoadError.TooLong
        → IfSome (S.files shelf.old) (λ told. IsSomeAnd (told name.now) (λ bytes. 16_777_216 < length bytes)) }
{
    shelf.open(name)?;
    let mut bytes = Vec::new(alloc);
    let mut piece = [0u8; PIECE];
    loop {
        let taken = shelf.read(&mut piece)?;
        if taken == 0 {
            return Ok(Bytes::new(bytes));
        }
        if taken > LONGEST_FILE - bytes.len() {
            return Err(LoadError::TooLong);
        }
        bytes.extend_from_slice(&piece[..taken])?;
    }
}
