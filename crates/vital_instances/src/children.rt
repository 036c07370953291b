//! The instances in a netlist unit.

ghost use Rattle.std.specs.Prelude.{◌≡◌, [], map};
ghost use Rattle.vital_instances.specs.Children as spec;
ghost use Rattle.vital_instances.specs.Faults.{IsAnswer};
ghost use Rattle.vital_structure.specs.Statements as of_statements;
ghost use Rattle.vital_structure.specs.Structures.{signals_of};

use crate::child::{Child, child_of};
use crate::entity_ports::EntityPorts;
use crate::fault::{Fault, InstancesError};
use std::alloc::Global;
use vital_base::List;
use vital_library::Library;
use vital_names::LibraryNames;
use vital_nodes::{Arch, Entity};
use vital_structure::{Statement, Structure, StructureError};

/// What a statement gives, or its fault.
fn child_in<'a>(
    alloc: Global,
    library: &Library,
    ports: &EntityPorts<'a>,
    structure: &Structure<'a>,
    statement: Statement<'a>,
) -> Result<Child<'a>, InstancesError<'a>>
    requires { ports.now ≡ library.now }
    ensures { IsAnswer spec.lent (spec.child_in library.now (signals_of structure.now) (of_statements.lent statement.entry)) result }
{
    match statement {
        Statement::Instance(instance) => child_of(alloc, library, ports, structure, instance),
        Statement::NotStructural(place) => {
            Err(InstancesError::Fault(Fault::NotStructural(place)))
        }
    }
}

/// The instances of statements, or the first fault of a statement.
fn children_in<'a>(
    alloc: Global,
    library: &Library,
    ports: &EntityPorts<'a>,
    structure: &Structure<'a>,
    statements: &[Statement<'a>],
) -> Result<List<Child<'a>>, InstancesError<'a>>
    requires { ports.now ≡ library.now }
    ensures { IsAnswer (map spec.lent) (spec.children_behind library.now (signals_of structure.now) [] (map of_statements.lent statements.now)) result }
{
    let mut found = Vec::new(alloc);
    for statement in statements {
        let child = child_in(alloc, library, ports, structure, *statement)?;
        found.push(child)?;
    }
    Ok(List::new(found))
}

/// The instances in a netlist unit, or its first fault. It takes time in proportion to its text.
pub fn children<'a>(
    alloc: Global,
    library: &Library,
    names: &LibraryNames<'_>,
    ports: &EntityPorts<'a>,
    entity: &'a Entity,
    arch: &'a Arch,
) -> Result<List<Child<'a>>, InstancesError<'a>>
    requires { ports.now ≡ library.now }
    ensures { IsAnswer (map spec.lent) (spec.children library.now (record { entity = entity.now; arch = arch.now })) result }
{
    match Structure::new(alloc, names, entity, arch) {
        Ok(structure) => children_in(alloc, library, ports, &structure, structure.statements()),
        Err(StructureError::Fault(fault)) => Err(InstancesError::Fault(Fault::Declaration(fault))),
        Err(StructureError::NoMemory) => Err(InstancesError::NoMemory),
    }
}
