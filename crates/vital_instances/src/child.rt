//! One instance in a netlist unit.

ghost use Rattle.std.specs.Prelude.{◌≡◌, unwrap_or};
ghost use Rattle.vital_instances.specs.Children as spec;
ghost use Rattle.vital_instances.specs.Faults.{IsAnswer};
ghost use Rattle.vital_structure.specs.Structures.{signals_of};
ghost use Rattle.vital_nodes.specs.Names.{selected};

use crate::entity_ports::EntityPorts;
use crate::fault::{Fault, InstancesError};
use std::alloc::Global;
use vital_associations::{Association, AssociationsError, Formals, associations};
use vital_base::List;
use vital_library::Library;
use vital_nodes::{Identifier, Instance, Reference, Suffix};
use vital_structure::Structure;

/// An instance in a netlist unit.
#[derive(Drop)]
pub struct Child<'a> {
    pub label: &'a Identifier,
    /// The last identifier of the name of its unit.
    pub name: &'a Identifier,
    /// The number of its entity.
    pub entity: u32,
    pub associations: List<Association<'a>>,
}

/// The identifier directly behind a dot, or the one before a suffix that is something else.
fn identifier_behind<'a>(last: &'a Identifier, suffix: &'a Suffix) -> &'a Identifier
    ensures { result.now ≡ unwrap_or (selected suffix.now) last.now }
{
    match suffix {
        Suffix::Selected(identifier) => identifier,
        _ => last,
    }
}

/// The last of an identifier and those directly behind dots.
fn last_behind<'a>(first: &'a Identifier, suffixes: &'a [Suffix]) -> &'a Identifier
    ensures { result.now ≡ spec.last_behind first.now suffixes.now }
{
    let mut last = first;
    let mut rest = suffixes;
    while let Some((suffix, others)) = rest.split_first() {
        last = identifier_behind(last, suffix);
        rest = others;
    }
    last
}

/// The identifier of a unit that a name names. Whatever else is in the name is passed over.
fn unit_identifier(name: &Reference) -> &Identifier
    ensures { result.now ≡ spec.unit_identifier name.now }
{
    last_behind(&name.identifier, name.suffixes.as_slice())
}

/// An instance of an entity with these ports, or the first fault of an association.
fn child_with<'a>(
    alloc: Global,
    structure: &Structure<'a>,
    instance: &'a Instance,
    entity: u32,
    formals: &Formals<'a>,
) -> Result<Child<'a>, InstancesError<'a>>
    ensures { IsAnswer spec.lent (spec.child_with instance.now entity formals.now (signals_of structure.now)) result }
{
    match associations(alloc, structure, formals, instance.ports.as_slice()) {
        Ok(associations) => Ok(Child {
            label: &instance.label,
            name: unit_identifier(&instance.unit),
            entity,
            associations,
        }),
        Err(AssociationsError::Fault(fault)) => {
            Err(InstancesError::Fault(Fault::Association(fault)))
        }
        Err(AssociationsError::NoMemory) => Err(InstancesError::NoMemory),
    }
}

/// An instance in a unit, or the first test that it fails. It takes time in proportion to its items.
pub fn child_of<'a>(
    alloc: Global,
    library: &Library,
    ports: &EntityPorts<'a>,
    structure: &Structure<'a>,
    instance: &'a Instance,
) -> Result<Child<'a>, InstancesError<'a>>
    requires { ports.now ≡ library.now }
    ensures { IsAnswer spec.lent (spec.child_of library.now (signals_of structure.now) instance.now) result }
{
    let name = unit_identifier(&instance.unit);
    let Some(entity) = library.entity_named(name.name.as_slice()) else {
        return Err(InstancesError::Fault(Fault::UnknownUnit(name)));
    };
    if !instance.generics.is_empty() {
        return Err(InstancesError::Fault(Fault::GenericMap(name)));
    }
    child_with(alloc, structure, instance, entity, ports.of_entity(entity))
}
