//! The units of a design.

ghost use Rattle.std.specs.Prelude.{◌≡◌, ◌≤◌, ◌<◌, ◌+◌, ◌^◌, [], length, map, min, take, All, IsSome, Some, None, IfOk};
ghost use Rattle.std.specs.List.{enumerate_from};
ghost use Rattle.vital_connections.specs.Objects.{bits_of_all, lent, object_of_signal};
ghost use Rattle.vital_connections.specs.Runs.{bits_of_runs};
ghost use Rattle.vital_netlist.specs.Cells as of_cells;
ghost use Rattle.vital_instances.specs.Contents.{contents_at, fault_in as fault_in'};
ghost use Rattle.vital_instances.specs.Designs.{HasInstance};
ghost use Rattle.vital_instances.specs.Units.{lent as lent', net_unit_of, unit_at};
ghost use Rattle.vital_netlist.specs.Netlists as spec;
ghost use Rattle.vital_netlist.specs.DesignObjects as objects';
ghost use Rattle.vital_structure.specs.Structures.{fault_in, signals_of};

use crate::cells::Cells;
use crate::driven::driven_numbers;
use crate::object::objects_of_cell;
use std::alloc::{AllocError, Global};
use vital_connections::{Object, Run, objects_of_signals, put_run, whole_run};
use vital_instances::LibraryUnit;
use vital_names::LibraryNames;
use vital_structure::{Structure, StructureError};
use vital_typed_cells::PackageLevels;

/// What all instances of a unit have in common.
#[derive(Drop)]
pub struct Unit<'a> {
    /// Its name.
    pub name: &'a [u8],
    /// How many of its objects are ports.
    pub ports: usize,
    /// Its ports, and then its signals.
    pub objects: Vec<Object<'a>>,
    /// The bits of its ports, by these and from left to right.
    pub port_bits: Vec<Run>,
    /// The bits of its signals, by these and from left to right.
    pub signal_bits: Vec<Run>,
    /// The numbers of the objects that its statements drive, in order. A netlist unit drives none.
    pub driven: Vec<usize>,
}

/// No ports or signals.
pub fn no_objects<'b, 'a>() -> &'b [Object<'a>]
    ensures { result.now ≡ [] }
{
    &[]
}

/// The lesser of two numbers.
fn lesser(first: usize, second: usize) -> usize
    ensures least { result ≡ min first second }
    ensures within { result ≤ second }
{
    if first < second { first } else { second }
}

/// The bits of ports and signals, of which the first has this number.
fn bits_from(alloc: Global, first: usize, objects: &[Object<'_>]) -> Result<Vec<Run>, AllocError>
    requires { first + length objects.now < 2 ^ 63 }
    ensures { IfOk result (λ runs. bits_of_runs runs.items ≡ bits_of_all (enumerate_from first (map lent objects.now))) }
{
    let mut runs = Vec::new(alloc);
    for (number, object) in objects.iter().enumerate() {
        put_run(&mut runs, whole_run(alloc, first + number, object)?)?;
    }
    Ok(runs)
}

/// The ports and signals of a netlist unit, which has no fault.
fn objects_of_net_unit<'a>(
    alloc: Global,
    names: &LibraryNames<'_>,
    unit: LibraryUnit<'a>,
) -> Result<Vec<Object<'a>>, AllocError>
    requires { fault_in (net_unit_of (lent' unit)) ≡ None }
    ensures { IfOk result (λ found. map lent found.items ≡ map object_of_signal (signals_of (net_unit_of (lent' unit.entry)))) }
{
    match Structure::new(alloc, names, unit.entity, unit.arch) {
        Ok(structure) => objects_of_signals(alloc, structure.signals()),
        Err(StructureError::Fault(_)) => unreachable!(),
        Err(StructureError::NoMemory) => Err(AllocError),
    }
}

/// The ports and signals of a unit, which has no fault and an instance, where this is what the constants of packages are worth.
fn objects_of<'a>(
    alloc: Global,
    names: &LibraryNames<'_>,
    cells: &'a Cells<'a>,
    packages: &PackageLevels<'_>,
    entity: u32,
    unit: LibraryUnit<'a>,
) -> Result<Vec<Object<'a>>, AllocError>
    requires unit { unit_at cells.now.files entity ≡ Some (lent' unit) }
    requires found { HasInstance cells.now.instances entity }
    requires contents { fault_in' (contents_at cells.now.files entity) ≡ None }
    requires packages { All (λ c. c.packages ≡ packages.now) (of_cells.cells cells.now.files cells.now.instances) }
    ensures { IfOk result (λ found. map lent found.items ≡ objects'.objects_at cells.now.files entity) }
{
    match cells.of_entity(entity) {
        Some(cell) => objects_of_cell(alloc, packages, cell.cell()),
        None => objects_of_net_unit(alloc, names, unit),
    }
}

/// The numbers of the ports and signals that the statements of a unit drive, which has an instance.
fn driven_of(alloc: Global, cells: &Cells<'_>, entity: u32) -> Result<Vec<usize>, AllocError>
    requires found { HasInstance cells.now.instances entity }
    requires unit { IsSome (unit_at cells.now.files entity) }
    ensures { IfOk result (λ found. found.items ≡ objects'.driven_at cells.now.files entity) }
{
    match cells.of_entity(entity) {
        Some(cell) => driven_numbers(alloc, cell.cell()),
        None => Ok(Vec::new(alloc)),
    }
}

impl<'a> Unit<'a> {
    /// The unit that an entity is, which has no fault and an instance, where this is what the constants of packages are worth.
    pub fn new(
        alloc: Global,
        names: &LibraryNames<'_>,
        cells: &'a Cells<'a>,
        packages: &PackageLevels<'_>,
        entity: u32,
        unit: LibraryUnit<'a>,
    ) -> Result<Unit<'a>, AllocError>
        requires unit { unit_at cells.now.files entity ≡ Some (lent' unit) }
        requires found { HasInstance cells.now.instances entity }
        requires contents { fault_in' (contents_at cells.now.files entity) ≡ None }
        requires packages { All (λ c. c.packages ≡ packages.now) (of_cells.cells cells.now.files cells.now.instances) }
        ensures { IfOk result (λ found. spec.IsUnit cells.now.files entity found) }
    {
        let objects = objects_of(alloc, names, cells, packages, entity, unit)?;
        let ports = lesser(unit.entity.ports.as_slice().len(), objects.len());
        let (front, behind) = objects.split_at(ports);
        let port_bits = bits_from(alloc, 0, front)?;
        let signal_bits = bits_from(alloc, ports, behind)?;
        let driven = driven_of(alloc, cells, entity)?;
        Ok(Unit {
            name: unit.entity.identifier.name.as_slice(),
            ports,
            objects,
            port_bits,
            signal_bits,
            driven,
        })
    }

    /// Its ports.
    pub fn port_objects(&self) -> &[Object<'a>]
        requires { self.now.ports ≤ length self.now.objects.items }
        ensures { result.now ≡ take self.now.ports self.now.objects.items }
    {
        &self.objects[..self.ports]
    }
}
