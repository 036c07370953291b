//! What a library keeps of its entities.

ghost use Rattle.std.specs.Prelude.{◌≡◌, ℕ, List, ◌∷◌, [], ◌++◌, IfOk, OnOk, map, if◌then◌else◌};
ghost use Rattle.std.specs.Str.{bytes_eq};
ghost use Rattle.vital_library.specs.Entries.{entities_with_positions, entries_among, group_of, positions_of_archs, shown, with_group};
ghost use Rattle.vital_library.specs.Positions.{seen};

use crate::position::Position;
use crate::unit_at::UnitAt;
use std::alloc::{AllocError, Global};
use std::collections::HashMap;
use vital_nodes::Unit;

/// Where an entity stands, and where its architectures do.
#[derive(Drop)]
pub struct Entry {
    pub position: Position,
    pub archs: Vec<Position>,
}

/// The entries of all entities, in order.
pub fn entries<'a>(alloc: Global, units: &'a [UnitAt<'a>]) -> Result<Vec<Entry>, AllocError>
    ensures { IfOk result (λ entries. map shown entries.items ≡ entries_among (map seen units.now)) }
{
    let groups = archs_by_entity(alloc, units)?;
    let mut entries = Vec::new(alloc);
    for at in units {
        put_entity(alloc, &mut entries, &groups, at)?;
    }
    Ok(entries)
}

/// Puts the entry of a unit at the end if it is an entity.
fn put_entity<'a>(
    alloc: Global,
    entries: &mut Vec<Entry>,
    groups: &HashMap<&'a [u8], Vec<Position>>,
    at: &'a UnitAt<'a>,
) -> Result<(), AllocError>
    ensures { OnOk result (map shown entries.new.items ≡ map shown entries.old.items ++ map (with_group groups.now) (entities_with_positions (seen at.now ∷ []))) }
{
    if let Unit::Entity(entity) = at.unit {
        let archs = group(alloc, groups, entity.identifier.name.as_slice())?;
        entries.push(Entry {
            position: at.position,
            archs,
        })?;
    }
    Ok(())
}

/// The positions of all architectures by the names of their entities.
fn archs_by_entity<'a>(
    alloc: Global,
    units: &'a [UnitAt<'a>],
) -> Result<HashMap<&'a [u8], Vec<Position>>, AllocError>
    ensures { IfOk result (λ groups. (name : List ℕ) → group_of groups name ≡ positions_of_archs name (map seen units.now)) }
{
    let mut groups: HashMap<&'a [u8], Vec<Position>> = HashMap::new(alloc);
    for at in units {
        put_arch(alloc, &mut groups, at)?;
    }
    Ok(groups)
}

/// Puts the position of a unit under the name of its entity if it is an architecture.
fn put_arch<'a>(
    alloc: Global,
    groups: &mut HashMap<&'a [u8], Vec<Position>>,
    at: &'a UnitAt<'a>,
) -> Result<(), AllocError>
    ensures { OnOk result ((name : List ℕ) → group_of groups.new name ≡ group_of groups.old name ++ positions_of_archs name (seen at.now ∷ [])) }
{
    if let Unit::Arch(arch) = at.unit {
        put_position(alloc, groups, arch.entity.name.as_slice(), at.position)?;
    }
    Ok(())
}

/// Puts a position at the end of those under a name.
fn put_position<'a>(
    alloc: Global,
    groups: &mut HashMap<&'a [u8], Vec<Position>>,
    name: &'a [u8],
    position: Position,
) -> Result<(), AllocError>
    ensures { OnOk result ((q : List ℕ) → group_of groups.new q ≡ group_of groups.old q ++ (if bytes_eq name.now q then position ∷ [] else [])) }
{
    let mut group = match groups.remove(name) {
        Some(group) => group,
        None => Vec::new(alloc),
    };
    group.push(position)?;
    groups.insert(name, group)?;
    Ok(())
}

/// A copy of the positions under a name.
fn group<'a>(
    alloc: Global,
    groups: &HashMap<&'a [u8], Vec<Position>>,
    name: &'a [u8],
) -> Result<Vec<Position>, AllocError>
    ensures { IfOk result (λ group. group.items ≡ group_of groups.now name.now) }
{
    match groups.get(name) {
        Some(group) => Vec::from_slice(alloc, group),
        None => Ok(Vec::new(alloc)),
    }
}
