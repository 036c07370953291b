//! The faults of units.

ghost use Rattle.std.specs.Prelude.{◌≡◌, ◌||◌, ℕ, List, [], ◌∷◌, IfOk, OnOk, map, fold, if◌then◌else◌};
ghost use Rattle.vital_library.specs.Faults.{duplicate, duplicates, faults, has_entity, least_of, no_entity, sooner};
ghost use Rattle.vital_library.specs.Names.{has_name, without_name};
ghost use Rattle.vital_library.specs.Positions.{units_in};

use crate::fault::{Fault, FaultKind, sooner};
use crate::names::{DeclaredNames, put_name};
use crate::unit_at::UnitAt;
use std::alloc::{AllocError, Global};
use std::collections::HashSet;
use vital_nodes::{Arch, HasIdentifier, Unit};

/// The fault of units that counts, if there is one.
pub fn least_fault<'a>(alloc: Global, units: &'a [UnitAt<'a>]) -> Result<Option<Fault>, AllocError>
    ensures { IfOk result (λ least. least ≡ least_of (faults (units_in units.now))) }
{
    let least = least_duplicate(alloc, units)?;
    let entities = entity_names(alloc, units)?;
    Ok(least_without_entity(least, &entities, units))
}

/// The least of the duplicates.
fn least_duplicate<'a>(alloc: Global, units: &'a [UnitAt<'a>]) -> Result<Option<Fault>, AllocError>
    ensures { IfOk result (λ least. least ≡ least_of (map duplicate (duplicates (units_in units.now)))) }
{
    let mut names = DeclaredNames::new(alloc);
    let mut least = None;
    for at in units {
        if !names.declare(at.unit)? {
            least = sooner(least, duplicate(at.unit));
        }
    }
    Ok(least)
}

/// The fault of a unit whose name an earlier one has.
fn duplicate(unit: &Unit) -> Fault
    ensures { result ≡ duplicate unit.now }
{
    Fault {
        kind: FaultKind::Duplicate,
        place: unit.identifier().place,
    }
}

/// The names of the entities.
fn entity_names<'a>(alloc: Global, units: &'a [UnitAt<'a>]) -> Result<HashSet<&'a [u8]>, AllocError>
    ensures { IfOk result (λ names. (name : List ℕ) → has_name names name ≡ has_entity (units_in units.now) name) }
{
    let mut names: HashSet<&'a [u8]> = HashSet::new(alloc);
    for at in units {
        put_entity(&mut names, at.unit)?;
    }
    Ok(names)
}

/// Puts the name of a unit into a set if it is an entity.
fn put_entity<'a>(names: &mut HashSet<&'a [u8]>, unit: &'a Unit) -> Result<(), AllocError>
    ensures { OnOk result ((name : List ℕ) → has_name names.new name ≡ (has_entity (unit.now ∷ []) name || has_name names.old name)) }
{
    if let Unit::Entity(entity) = unit {
        put_name(names, entity.identifier.name.as_slice())?;
    }
    Ok(())
}

/// The least fault so far, or the least of the architectures of entities that the names lack.
fn least_without_entity<'a>(
    mut least: Option<Fault>,
    names: &HashSet<&'a [u8]>,
    units: &'a [UnitAt<'a>],
) -> Option<Fault>
    ensures { result ≡ fold sooner least (map no_entity (without_name names.now (units_in units.now))) }
{
    for at in units {
        least = sooner_without_entity(least, names, at.unit);
    }
    least
}

/// The least fault so far, or that of a unit if it is an architecture of an entity that the names lack.
fn sooner_without_entity<'a>(
    least: Option<Fault>,
    names: &HashSet<&'a [u8]>,
    unit: &'a Unit,
) -> Option<Fault>
    ensures { result ≡ fold sooner least (map no_entity (without_name names.now (unit.now ∷ []))) }
{
    match unit {
        Unit::Arch(arch) => sooner_of_arch(least, names, arch),
        _ => least,
    }
}

/// The least fault so far, or that of an architecture if the names lack its entity.
fn sooner_of_arch<'a>(
    least: Option<Fault>,
    names: &HashSet<&'a [u8]>,
    arch: &'a Arch,
) -> Option<Fault>
    ensures { result ≡ (if has_name names.now arch.now.entity.name then least else sooner least (no_entity arch.now)) }
{
    if names.contains(arch.entity.name.as_slice()) {
        return least;
    }
    sooner(
        least,
        Fault {
            kind: FaultKind::NoEntity,
            place: arch.entity.place,
        },
    )
}
