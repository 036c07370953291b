//! What the netlist units of a library hold.

ghost use Rattle.std.specs.Prelude.{◌≡◌, map, IfOk};
ghost use Rattle.std.specs.Option.{option_map};
ghost use Rattle.vital_instances.specs.Children as children;
ghost use Rattle.vital_instances.specs.Contents as spec;
ghost use Rattle.vital_instances.specs.Faults as faults;
ghost use Rattle.vital_instances.specs.Units as of_units;

use crate::child::Child;
use crate::children::children;
use crate::entity_ports::EntityPorts;
use crate::fault::{Fault, InstancesError};
use crate::library_unit::{LibraryUnit, unit_at};
use std::alloc::{AllocError, Global};
use std::marker::Model;
use vital_base::List;
use vital_library::Library;
use vital_names::LibraryNames;
use vital_nodes::Role;

/// The instances in a unit, or its first fault.
pub type Contents<'a> = Result<List<Child<'a>>, Fault<'a>>;

/// The instances in each entity of a library, or its first fault. It is made once for a library. Contracts see it as the files of the
/// library.
#[derive(Drop)]
pub struct NetUnits<'a> {
    library: &'a Library,
    /// One for each entity, in order. Cells have no instances.
    contents: Vec<Contents<'a>>,
}

impl<'a> Model for NetUnits<'a> {
    ghost use Rattle.std.specs.Prelude.{List};
    ghost use Rattle.std.specs.Coded.{codes};
    ghost use Rattle.vital_instances.specs.Contents.{HasContents};
    ghost use Rattle.vital_nodes.specs.contracts.unit.Units as units;
    ghost use Rattle.vital_nodes.specs.declared.unit.Units.{Units};

    ghost Value = { List Units };

    ghost coded = { Prim.hlevel (codes, units.the_row.coded) };

    ghost view = { λ u. u.library.now };

    ghost invariant = { λ u. HasContents u.library.now u.contents.items };
}

/// The fault, if there is one.
fn fault_in<'a>(contents: &Contents<'a>) -> Option<Fault<'a>>
    ensures { option_map faults.lent result ≡ spec.fault_in (spec.lent contents.now) }
{
    match contents {
        Ok(_) => None,
        Err(fault) => Some(*fault),
    }
}

/// The instances, if there is no fault.
fn or_none<'b, 'a>(contents: &'b Contents<'a>) -> &'b [Child<'a>]
    ensures { map children.lent result.now ≡ spec.or_none (spec.lent contents.now) }
{
    match contents {
        Ok(children) => children.as_slice(),
        Err(_) => &[],
    }
}

/// What a netlist unit holds.
fn contents_of_net_unit<'a>(
    alloc: Global,
    library: &Library,
    names: &LibraryNames<'_>,
    ports: &EntityPorts<'a>,
    unit: LibraryUnit<'a>,
) -> Result<Contents<'a>, AllocError>
    requires { ports.now ≡ library.now }
    ensures { IfOk result (λ contents. spec.lent contents ≡ children.children library.now (record { entity = unit.entry.entity.now; arch = unit.entry.arch.now })) }
{
    match children(alloc, library, names, ports, unit.entity, unit.arch) {
        Ok(children) => Ok(Ok(children)),
        Err(InstancesError::Fault(fault)) => Ok(Err(fault)),
        Err(InstancesError::NoMemory) => Err(AllocError),
    }
}

/// What a unit holds.
fn contents_of<'a>(
    alloc: Global,
    library: &Library,
    names: &LibraryNames<'_>,
    ports: &EntityPorts<'a>,
    unit: LibraryUnit<'a>,
) -> Result<Contents<'a>, AllocError>
    requires { ports.now ≡ library.now }
    ensures { IfOk result (λ contents. spec.lent contents ≡ spec.contents library.now (of_units.lent unit.entry)) }
{
    match unit.role {
        Role::Lib => Ok(Ok(List::new(Vec::new(alloc)))),
        Role::Net => contents_of_net_unit(alloc, library, names, ports, unit),
    }
}

/// What the entity of a number holds.
fn contents_at<'a>(
    alloc: Global,
    library: &'a Library,
    names: &LibraryNames<'_>,
    ports: &EntityPorts<'a>,
    number: u32,
) -> Result<Contents<'a>, AllocError>
    requires { ports.now ≡ library.now }
    ensures { IfOk result (λ contents. spec.lent contents ≡ spec.contents_at library.now number) }
{
    match unit_at(library, number) {
        Some(unit) => contents_of(alloc, library, names, ports, unit),
        None => Ok(Ok(List::new(Vec::new(alloc)))),
    }
}

impl<'a> NetUnits<'a> {
    /// What the entities of a library hold. It takes time and memory in proportion to the text of its netlist units.
    pub fn new(
        alloc: Global,
        library: &'a Library,
        names: &'a LibraryNames<'a>,
    ) -> Result<NetUnits<'a>, AllocError>
        ensures { IfOk result (λ units. units ≡ library.now) }
    {
        let ports = EntityPorts::new(alloc, library, names)?;
        let mut contents = Vec::new(alloc);
        for number in 0..library.entity_count() {
            let content = contents_at(alloc, library, names, &ports, number)?;
            contents.push(content)?;
        }
        Ok(NetUnits { library, contents })
    }

    /// The first fault of the entity of a number, if it has one.
    pub fn fault(&self, number: u32) -> Option<Fault<'a>>
        ensures { option_map faults.lent result ≡ spec.fault_in (spec.contents_at self.now number) }
    {
        match self.contents.get(number as usize) {
            Some(contents) => fault_in(contents),
            None => None,
        }
    }

    /// The instances in the entity of a number, if it has no fault.
    pub fn children(&self, number: u32) -> &[Child<'a>]
        ensures { map children.lent result.now ≡ spec.children_at self.now number }
    {
        if (number as usize) < self.contents.len() {
            or_none(&self.contents[number as usize])
        } else {
            &[]
        }
    }
}
