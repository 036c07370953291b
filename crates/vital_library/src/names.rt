//! The names of units.

ghost use Rattle.std.specs.Prelude.{◌≡◌, ◌&&◌, ◌||◌, ℕ, false, not, List, IfOk, OnOk};
ghost use Rattle.std.specs.Str.{bytes_eq};
ghost use Rattle.vital_nodes.specs.declared.unit.Unit.{Unit as Unit'};
ghost use Rattle.vital_library.specs.Faults.{shares_name};
ghost use Rattle.vital_library.specs.Names.{has_name, has_names, is_declared};

use std::alloc::{AllocError, Global};
use std::collections::HashSet;
use vital_nodes::{HasIdentifier, Unit};

/// Names that were declared, borrowed from the units.
#[derive(Drop)]
pub struct DeclaredNames<'a> {
    /// Those of entities, packages and configurations.
    names: HashSet<&'a [u8]>,
    /// Those of entities, each with the name of one of its architectures.
    archs: HashSet<(&'a [u8], &'a [u8])>,
}

impl<'a> DeclaredNames<'a> {
    /// No names yet. It takes no memory.
    pub fn new(alloc: Global) -> Self
        ensures { (w : Unit') → is_declared result w ≡ false }
    {
        DeclaredNames {
            names: HashSet::new(alloc),
            archs: HashSet::new(alloc),
        }
    }

    /// Declares the name of a unit, and says whether it is new in its space.
    pub fn declare(&mut self, unit: &'a Unit) -> Result<bool, AllocError>
        ensures added { IfOk result (λ added. added ≡ not (is_declared self.old unit.now)) }
        ensures names { OnOk result ((w : Unit') → is_declared self.new w ≡ (shares_name unit.now w || is_declared self.old w)) }
    {
        match unit {
            Unit::Arch(arch) => put_names(
                &mut self.archs,
                arch.entity.name.as_slice(),
                arch.identifier.name.as_slice(),
            ),
            other => put_name(&mut self.names, other.identifier().name.as_slice()),
        }
    }
}

/// Puts a name into a set, and says whether it was not there.
pub fn put_name<'a>(names: &mut HashSet<&'a [u8]>, name: &'a [u8]) -> Result<bool, AllocError>
    ensures added { IfOk result (λ added. added ≡ not (has_name names.old name.now)) }
    ensures names { OnOk result ((q : List ℕ) → has_name names.new q ≡ (bytes_eq name.now q || has_name names.old q)) }
{
    Ok(names.insert(name)?)
}

/// Puts the names of an entity and of its architecture into a set, and says whether they were not there.
fn put_names<'a>(
    names: &mut HashSet<(&'a [u8], &'a [u8])>,
    entity: &'a [u8],
    arch: &'a [u8],
) -> Result<bool, AllocError>
    ensures added { IfOk result (λ added. added ≡ not (has_names names.old entity.now arch.now)) }
    ensures names { OnOk result ((p q : List ℕ) → has_names names.new p q ≡ ((bytes_eq entity.now p && bytes_eq arch.now q) || has_names names.old p q)) }
{
    Ok(names.insert((entity, arch))?)
}
