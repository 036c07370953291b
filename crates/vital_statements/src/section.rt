//! L1.10: the sections of processes.

ghost use Rattle.std.specs.Prelude.{◌≡◌, ◌++◌, true, IfOk, OnOk};
ghost use Rattle.std.specs.Option.{option_map_or};
ghost use Rattle.vital_statements.specs.Clauses.{clause_10, places_10, places_10_at, places_10_in};
ghost use Rattle.vital_statements.specs.Lists.{each};
ghost use Rattle.vital_statements.specs.Sections.{is_later, latest_of, section_of, section_of_procedure};

use crate::call::procedure_of;
use crate::places::put_if;
use crate::statement::{as_process, statements_of};
use std::alloc::{AllocError, Global};
use vital_base::Place;
use vital_calls::call_of;
use vital_names::{CellNames, Procedure, ProcessNames};
use vital_nodes::{Conc, HasPlace, Process, Stmt, all_concurrent};

/// A section of a process (IEEE 1076.4). They stand in this order.
#[derive(Clone, Copy, PartialEq, Eq)]
pub enum Section {
    /// The `if` of the timing checks.
    Checks,
    /// Variable assignments and calls of VitalStateTable.
    Functionality,
    /// Calls of path delays.
    PathDelays,
}

impl Section {
    /// Whether it stands after another.
    fn is_later(self, other: Section) -> bool
        ensures { result ≡ is_later self other }
    {
        match self {
            Section::Checks => false,
            Section::Functionality => matches!(other, Section::Checks),
            Section::PathDelays => !matches!(other, Section::PathDelays),
        }
    }
}

/// The section of calls of a procedure.
fn section_of_procedure(procedure: Procedure) -> Option<Section>
    ensures { result ≡ section_of_procedure procedure }
{
    match procedure {
        Procedure::StateTable => Some(Section::Functionality),
        Procedure::PathDelay(_) => Some(Section::PathDelays),
        Procedure::WireDelay | Procedure::Check(_) => None,
    }
}

/// The section that a statement of a process belongs to, if it is one that may stand there.
fn section_of(names: &CellNames<'_>, process: &ProcessNames<'_>, stmt: &Stmt) -> Option<Section>
    ensures { result ≡ section_of names.now process.now stmt.now }
{
    match stmt {
        Stmt::VariableAssignment(_, _) => Some(Section::Functionality),
        Stmt::If(_, _) => Some(Section::Checks),
        Stmt::Call(_, name) => {
            section_of_procedure(procedure_of(names, Some(process), call_of(name)?)?)
        }
        Stmt::SignalAssignment(_, _) | Stmt::Null(_) => None,
    }
}

/// The places where L1.10 is broken: each statement of a process that belongs to no section, and each that stands after one of a
/// later section.
pub fn clause_10(alloc: Global, names: &CellNames<'_>) -> Result<Vec<Place>, AllocError>
    ensures { IfOk result (λ places. places.items ≡ clause_10 names.now) }
{
    let concs = all_concurrent(alloc, statements_of(names))?;
    let mut places = Vec::new(alloc);
    for conc in &concs {
        put_places(alloc, &mut places, names, conc)?;
    }
    Ok(places)
}

/// Puts the places in a concurrent statement at the end.
fn put_places(
    alloc: Global,
    places: &mut Vec<Place>,
    names: &CellNames<'_>,
    conc: &Conc,
) -> Result<(), AllocError>
    ensures { OnOk result (places.new.items ≡ places.old.items ++ places_10_in names.now conc.now) }
{
    match as_process(conc) {
        Some(process) => put_process(alloc, places, names, process),
        None => Ok(()),
    }
}

/// Puts the places in a process at the end.
fn put_process(
    alloc: Global,
    places: &mut Vec<Place>,
    names: &CellNames<'_>,
    process: &Process,
) -> Result<(), AllocError>
    ensures { OnOk result (places.new.items ≡ places.old.items ++ places_10 names.now process.now) }
{
    let process_names = ProcessNames::new(alloc, process)?;
    put_statements(places, names, &process_names, process.statements.as_slice())
}

/// Puts the places of statements of a process at the end.
fn put_statements(
    places: &mut Vec<Place>,
    names: &CellNames<'_>,
    process: &ProcessNames<'_>,
    statements: &[Stmt],
) -> Result<(), AllocError>
    ensures { OnOk result (places.new.items ≡ places.old.items ++ each (places_10_at names.now process.now) statements.now) }
{
    let mut latest = Section::Checks;
    for stmt in statements {
        let section = section_of(names, process, stmt);
        put_if(places, is_wrong(section, latest), stmt.place())?;
        latest = latest_of(section, latest);
    }
    Ok(())
}

/// Whether a statement belongs to no section, or to one before the latest.
fn is_wrong(section: Option<Section>, latest: Section) -> bool
    ensures { result ≡ option_map_or (is_later latest) section true }
{
    match section {
        Some(section) => latest.is_later(section),
        None => true,
    }
}

/// The latest section with one more.
fn latest_of(section: Option<Section>, latest: Section) -> Section
    ensures { result ≡ latest_of section latest }
{
    match section {
        Some(section) if section.is_later(latest) => section,
        _ => latest,
    }
}
