//! Files that are looked at for faults.

ghost use Rattle.std.specs.Prelude.{Err, MatchResult};
ghost use Rattle.vital_library.specs.Gathered.{GivesLibrary, gathered};
ghost use Rattle.vital_library.specs.Kept.{IsLibrary};

use crate::entry::{Entry, entries};
use crate::error::LibraryError;
use crate::faults::least_fault;
use crate::numbers::numbers;
use crate::unit_at::units_at;
use std::alloc::Global;
use std::collections::HashMap;
use vital_nodes::Units;

/// What a library keeps of its entities, beside its files.
#[derive(Drop)]
pub struct Index {
    /// One for each entity, in order.
    pub entries: Vec<Entry>,
    /// The numbers of the entities by copies of their names.
    pub numbers: HashMap<Vec<u8>, usize>,
}

/// What is kept of files, or how the files are refused.
pub fn index_of(alloc: Global, files: &[Units]) -> Result<Index, LibraryError>
    ensures { MatchResult result (λ index. IsLibrary index.entries.items index.numbers files.now) (λ e. GivesLibrary (Err e) (gathered files.now)) }
{
    let units = units_at(alloc, files)?;
    if let Some(fault) = least_fault(alloc, &units)? {
        return Err(fault.refusal());
    }
    let entries = entries(alloc, &units)?;
    let numbers = numbers(alloc, &units)?;
    Ok(Index { entries, numbers })
}
