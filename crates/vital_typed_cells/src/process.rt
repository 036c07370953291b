//! The processes of a cell.

ghost use Rattle.std.specs.Prelude.{◌≡◌, [], ◌∷◌, ◌++◌, map, IfOk, OnOk};
ghost use Rattle.std.specs.List.{count_by, filter_map};
ghost use Rattle.vital_statements.specs.Statements.{is_block as is_block'};
ghost use Rattle.vital_typed_cells.specs.Processes as spec;

use crate::bit_numbers::BitNumbers;
use sqlite_items::Items;
use std::alloc::{AllocError, Global};
use vital_names::{CellNames, ProcessNames};
use vital_nodes::{Conc, Process, Reference, plain_identifier};
use vital_objects::{CellReader, Constant, Variable, read_constants, read_variables};
use vital_sections::{Sections, read_sections};
use vital_statements::{as_block, as_process, statements_of};

/// A process of a cell.
#[derive(Drop)]
pub struct CellProcess {
    /// The bits to which it is sensitive, by their numbers from 0 among those of the ports and then of the internal signals, in the order of
    /// its list.
    pub sensitivity: Items<usize>,
    pub constants: Items<Constant>,
    pub variables: Items<Variable>,
    pub sections: Sections,
}

/// The number of the bit that a name in a sensitivity list names.
fn number_listed(bits: &BitNumbers<'_>, name: &Reference) -> Option<usize>
    ensures { result ≡ spec.number_listed bits.now name.now }
{
    bits.number(plain_identifier(name)?.name.as_slice())
}

/// Puts the number of the bit that a name in a sensitivity list names at the end, if it names one.
fn put_number(
    bits: &BitNumbers<'_>,
    name: &Reference,
    numbers: &mut Vec<usize>,
) -> Result<(), AllocError>
    ensures { OnOk result (numbers.new.items ≡ numbers.old.items ++ filter_map (spec.number_listed bits.now) (name.now ∷ [])) }
{
    if let Some(number) = number_listed(bits, name) {
        numbers.push(number)?;
    }
    Ok(())
}

/// The numbers of the bits that names in a sensitivity list name, in order.
fn numbers_listed(
    alloc: Global,
    bits: &BitNumbers<'_>,
    names: &[Reference],
) -> Result<Items<usize>, AllocError>
    ensures { IfOk result (λ numbers. numbers ≡ filter_map (spec.number_listed bits.now) names.now) }
{
    let mut numbers = Vec::new(alloc);
    for name in names {
        put_number(bits, name, &mut numbers)?;
    }
    Ok(Items::from_vec(numbers))
}

/// A process of a cell whose bits are these.
fn read_process<'a>(
    reader: &CellReader<'a>,
    bits: &BitNumbers<'_>,
    process: &'a ProcessNames<'a>,
) -> Result<CellProcess, AllocError>
    requires bits { bits.now ≡ spec.bits reader.now.names.now reader.now.faults.now }
    ensures { IfOk result (λ found. found ≡ spec.process reader.now.names.now reader.now.faults.now process.now) }
{
    let tree = process.process();
    Ok(CellProcess {
        sensitivity: numbers_listed(reader.alloc, bits, tree.sensitivity.as_slice())?,
        constants: read_constants(reader, Some(process), tree.declarations.as_slice())?,
        variables: read_variables(reader, process)?,
        sections: read_sections(reader.alloc, reader.names, reader.faults, process)?,
    })
}

/// These processes of a cell whose bits are these. It takes time in proportion to them.
pub fn read_processes<'a>(
    reader: &CellReader<'a>,
    bits: &BitNumbers<'_>,
    processes: &'a [ProcessNames<'a>],
) -> Result<Items<CellProcess>, AllocError>
    requires bits { bits.now ≡ spec.bits reader.now.names.now reader.now.faults.now }
    ensures { IfOk result (λ found. found ≡ map (spec.process reader.now.names.now reader.now.faults.now) processes.now) }
{
    let mut found = Vec::new(reader.alloc);
    for process in processes {
        found.push(read_process(reader, bits, process)?)?;
    }
    Ok(Items::from_vec(found))
}

/// Whether a concurrent statement is a block.
fn is_block(conc: &Conc) -> bool
    ensures { result ≡ is_block' conc.now }
{
    as_block(conc).is_some()
}

/// Whether a concurrent statement is a process.
fn is_process(conc: &Conc) -> bool
    ensures { result ≡ spec.is_process conc.now }
{
    as_process(conc).is_some()
}

/// How many of statements are processes that stand before the first block among them.
fn count_before_block(statements: &[Conc]) -> usize
    ensures { result ≡ count_by spec.is_process (spec.before_block statements.now) }
{
    statements
        .iter()
        .take_while(|conc| !is_block(conc))
        .filter(|conc| is_process(conc))
        .count()
}

/// How many processes of a cell stand before the block of wire delays.
pub fn processes_before_wires(names: &CellNames<'_>) -> usize
    ensures { result ≡ spec.processes_before_wires names.now }
{
    count_before_block(statements_of(names))
}
