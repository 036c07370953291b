//! What a netlist unit declares and states.

ghost use Rattle.std.specs.Prelude.{◌≡◌, map, IfOk};
ghost use Rattle.vital_structure.specs.Signals as of_signals;
ghost use Rattle.vital_structure.specs.Statements as of_statements;
ghost use Rattle.vital_structure.specs.Structures as spec;

use crate::content::Content;
use crate::contents::{contents_of, signals_in};
use crate::faults::{UnitFault, first_fault};
use crate::statement::{Statement, statements_of};
use crate::unit_signal::UnitSignal;
use std::alloc::{AllocError, Global};
use std::collections::HashMap;
use std::marker::Model;
use vital_names::{LibraryNames, put_first};
use vital_nodes::{Arch, Entity};

/// A netlist unit, an entity with an architecture, whose ports and declarations have no fault: its ports and signals, which are found by
/// their names, and its statements. It is made once for a unit. Contracts see it as the unit.
#[derive(Drop)]
pub struct Structure<'a> {
    entity: &'a Entity,
    arch: &'a Arch,
    /// The ports, and then the signals.
    signals: Vec<UnitSignal<'a>>,
    /// The number of the first of each name.
    numbers: HashMap<&'a [u8], usize>,
    statements: Vec<Statement<'a>>,
}

impl<'a> Model for Structure<'a> {
    ghost use Rattle.std.specs.Prelude.{◌≡◌, map};
    ghost use Rattle.std.specs.Coded.{codes};
    ghost use Rattle.vital_nodes.specs.contracts.unit.Arch as of_arch;
    ghost use Rattle.vital_nodes.specs.contracts.unit.Entity as of_entity;
    ghost use Rattle.vital_structure.specs.Structures.{NetUnit, HasNumbers, signals_of, statements_of};
    ghost use Rattle.vital_structure.specs.Signals.{lent};
    ghost use Rattle.vital_structure.specs.Statements as of_statements;

    ghost Value = { NetUnit };

    ghost coded = { Prim.hlevel (codes, of_entity.the_row.coded, of_arch.the_row.coded) };

    ghost view = { λ s. record { entity = s.entity.now; arch = s.arch.now } };

    ghost invariant = { λ s. (map lent s.signals.items ≡ signals_of (record { entity = s.entity.now; arch = s.arch.now })) × (map of_statements.lent s.statements.items ≡ statements_of (record { entity = s.entity.now; arch = s.arch.now })) × HasNumbers s.numbers (map lent s.signals.items) };
}

/// Why a netlist unit has no structure.
#[derive(Clone, Copy)]
pub enum StructureError<'a> {
    /// A port or a declaration has a fault, first there.
    Fault(UnitFault<'a>),
    NoMemory,
}

/// The number of the first of each name.
fn numbers_of<'a>(
    alloc: Global,
    signals: &[UnitSignal<'a>],
) -> Result<HashMap<&'a [u8], usize>, AllocError>
    ensures { IfOk result (λ numbers. spec.HasNumbers numbers (map of_signals.lent signals.now)) }
{
    let mut numbers: HashMap<&'a [u8], usize> = HashMap::new(alloc);
    for (number, signal) in signals.iter().enumerate() {
        put_first(&mut numbers, signal.identifier.name.as_slice(), number)?;
    }
    Ok(numbers)
}

impl<'a> Structure<'a> {
    /// The structure of a unit whose contents these are.
    fn of_contents(
        alloc: Global,
        entity: &'a Entity,
        arch: &'a Arch,
        contents: &[Content<'a>],
    ) -> Result<Structure<'a>, AllocError>
        requires { spec.HasContents (record { entity = entity.now; arch = arch.now }) contents.now }
        ensures { IfOk result (λ s. s ≡ record { entity = entity.now; arch = arch.now }) }
    {
        let signals = signals_in(alloc, contents)?;
        let numbers = numbers_of(alloc, &signals)?;
        let statements = statements_of(alloc, entity, arch)?;
        Ok(Structure {
            entity,
            arch,
            signals,
            numbers,
            statements,
        })
    }

    /// The structure of a unit, or the first fault of its ports and declarations. It takes time and memory in proportion to its
    /// declarations and statements.
    pub fn new(
        alloc: Global,
        library: &LibraryNames<'_>,
        entity: &'a Entity,
        arch: &'a Arch,
    ) -> Result<Structure<'a>, StructureError<'a>>
        ensures { spec.IsStructure (record { entity = entity.now; arch = arch.now }) result }
    {
        let Ok(contents) = contents_of(alloc, library, entity, arch) else {
            return Err(StructureError::NoMemory);
        };
        match first_fault(alloc, &contents) {
            Ok(None) => match Structure::of_contents(alloc, entity, arch, &contents) {
                Ok(structure) => Ok(structure),
                Err(_) => Err(StructureError::NoMemory),
            },
            Ok(Some(fault)) => Err(StructureError::Fault(fault)),
            Err(_) => Err(StructureError::NoMemory),
        }
    }

    /// Its entity.
    pub fn entity(&self) -> &'a Entity
        ensures { result.now ≡ self.now.entity }
    {
        self.entity
    }

    /// Its ports, and then the signals that it declares, in order.
    pub fn signals(&self) -> &[UnitSignal<'a>]
        ensures { map of_signals.lent result.now ≡ spec.signals_of self.now }
    {
        self.signals.as_slice()
    }

    /// Its statements, in order: those of the entity and of the architecture. The faults of statements come behind those of ports and
    /// declarations, one statement after another.
    pub fn statements(&self) -> &[Statement<'a>]
        ensures { map of_statements.lent result.now ≡ spec.statements_of self.now }
    {
        self.statements.as_slice()
    }

    /// The number of the port or signal of a name.
    pub fn number(&self, name: &[u8]) -> Option<usize>
        ensures { result ≡ spec.number_of (spec.signals_of self.now) name.now }
    {
        self.numbers.get(name).copied()
    }
}
