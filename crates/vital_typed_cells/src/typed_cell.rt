//! The typed tree of a cell.

ghost use Rattle.std.specs.Option.{option_copied};
ghost use Rattle.std.specs.Prelude.{◌≡◌, [], IfOk};
ghost use Rattle.vital_objects.specs.Ports.{ports as ports'};
ghost use Rattle.vital_typed_cells.specs.Processes.{processes as processes'};
ghost use Rattle.vital_objects.specs.Signals.{signals as signals'};
ghost use Rattle.vital_typed_cells.specs.Typed as spec;
ghost use Rattle.vital_typed_cells.specs.Wires.{wires as wires'};

use crate::bit_numbers::BitNumbers;
use crate::process::{CellProcess, processes_before_wires, read_processes};
use crate::typed_packages::TypedPackages;
use crate::wire::{WireDelay, read_wires};
use sqlite_items::Items;
use std::alloc::{AllocError, Global};
use vital_names::CellNames;
use vital_nodes::{Arch, Entity, Shared};
use vital_objects::{
    CellReader, Constant, Controls, PackageValue, PlainGeneric, Port, Signal, TimingGeneric,
    own_declarations, read_constants, read_controls, read_generics, read_ports, read_signals,
};
use vital_operands::Faults;
use vital_uses::CellStatements;

/// The typed tree of a cell (IEEE 1076.4, Level 1). Names are kept: a name in a process means what is declared in it, and else what the
/// cell declares. Its size is in proportion to the text of the cell: objects that are declared together share their value, and all cells
/// share what the constants of packages are worth.
#[derive(Drop)]
pub struct TypedCell {
    /// The bits of the ports, in order. Bits are numbered from 0: those of the ports, and then those of the internal signals.
    pub ports: Items<Port>,
    /// The timing generics, in order.
    pub generics: Items<TimingGeneric>,
    /// The other generics that are delays, in order.
    pub plain_generics: Items<PlainGeneric>,
    pub controls: Controls,
    /// The bits of the internal signals, in order.
    pub signals: Items<Signal>,
    /// The constants of the architecture, in order.
    pub constants: Items<Constant>,
    /// What the constants of all packages of the library are worth, by their numbers: nothing where the constant breaks a clause or passes a
    /// limit. A value names nothing but constants of packages before it.
    pub packages: Shared<Items<Option<Shared<PackageValue>>>>,
    /// The wire delays, in order: one for each call that joins a signal and a port.
    pub wires: Items<WireDelay>,
    /// How many of the processes stand before the wire delays. They are executed in the order of the text.
    pub processes_before_wires: usize,
    /// The processes, in order.
    pub processes: Items<CellProcess>,
}

/// The processes of a cell with these ports and signals.
fn processes_of<'a>(
    reader: &CellReader<'a>,
    statements: &'a CellStatements<'a>,
    ports: &[Port],
    signals: &[Signal],
) -> Result<Items<CellProcess>, AllocError>
    requires statements { statements.now ≡ reader.now.names.now.arch }
    requires ports { ports.now ≡ ports' reader.now.names.now reader.now.faults.now }
    requires signals { signals.now ≡ signals' reader.now.names.now }
    ensures { IfOk result (λ processes. processes ≡ processes' reader.now.names.now reader.now.faults.now) }
{
    let bits = BitNumbers::new(reader.alloc, ports, signals)?;
    let processes = read_processes(reader, &bits, statements.processes())?;
    Ok(processes)
}

/// The wire delays of a cell.
fn wires_of<'a>(
    reader: &CellReader<'a>,
    statements: &'a CellStatements<'a>,
) -> Result<Items<WireDelay>, AllocError>
    requires { statements.now ≡ reader.now.names.now.arch }
    ensures { IfOk result (λ wires. wires ≡ wires' reader.now.names.now) }
{
    let wires = read_wires(reader.alloc, reader.names, statements.statements())?;
    Ok(wires)
}

/// The typed tree of a cell with these ports and signals, where the constants of packages are worth these values.
#[tactic(auto, unfolding(crate::specs::Typed::typed_with))]
fn with_bits<'a>(
    reader: &CellReader<'a>,
    known: &[Option<Shared<PackageValue>>],
    packages: Shared<Items<Option<Shared<PackageValue>>>>,
    statements: &'a CellStatements<'a>,
    ports: Items<Port>,
    signals: Items<Signal>,
) -> Result<TypedCell, AllocError>
    requires packages { packages ≡ known.now }
    requires statements { statements.now ≡ reader.now.names.now.arch }
    requires ports { ports ≡ ports' reader.now.names.now reader.now.faults.now }
    requires signals { signals ≡ signals' reader.now.names.now }
    ensures { IfOk result (λ cell. cell ≡ spec.typed_with reader.now.names.now reader.now.faults.now known.now) }
{
    let names = reader.names;
    let processes = processes_of(reader, statements, ports.as_slice(), signals.as_slice())?;
    let generics = read_generics(reader, known)?;
    Ok(TypedCell {
        ports,
        generics: Items::from_vec(generics.timing),
        plain_generics: Items::from_vec(generics.plain),
        controls: read_controls(reader)?,
        signals,
        constants: read_constants(reader, None, own_declarations(names))?,
        packages,
        wires: wires_of(reader, statements)?,
        processes_before_wires: processes_before_wires(names),
        processes,
    })
}

/// The typed tree of a cell with these names and statements.
#[tactic(auto, unfolding(crate::specs::Typed::typed))]
fn read_with_names<'a>(
    alloc: Global,
    packages: &TypedPackages<'_>,
    names: &'a CellNames<'a>,
    statements: &'a CellStatements<'a>,
    faults: &'a Faults<'a>,
) -> Result<TypedCell, AllocError>
    requires packages { packages.now ≡ names.now.files }
    requires statements { statements.now ≡ names.now.arch }
    requires faults { faults.now ≡ [] }
    ensures { IfOk result (λ cell. cell ≡ spec.typed names.now) }
{
    let reader = CellReader {
        alloc,
        names,
        faults,
    };
    let ports = read_ports(&reader)?;
    let signals = read_signals(alloc, names)?;
    let values = packages.share_values()?;
    let cell = with_bits(
        &reader,
        packages.values(),
        values,
        statements,
        ports,
        signals,
    )?;
    Ok(cell)
}

/// The typed tree of an entity with one of its architectures or none, in a library whose packages these are. Where the cell breaks a clause,
/// what is not of its form is left out. It takes time and memory in proportion to the text of the cell.
pub fn read_typed_cell<'a>(
    alloc: Global,
    packages: &'a TypedPackages<'a>,
    entity: &'a Entity,
    arch: Option<&'a Arch>,
) -> Result<TypedCell, AllocError>
    ensures { IfOk result (λ cell. cell ≡ spec.typed (record { files = packages.now; entity = entity.now; arch = option_copied arch.entry })) }
{
    let names = CellNames::new(alloc, packages.packages().library(), entity, arch)?;
    let statements = CellStatements::new(alloc, arch)?;
    let faults = Faults::new(alloc, &[])?;
    read_with_names(alloc, packages, &names, &statements, &faults)
}
