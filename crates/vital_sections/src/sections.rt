//! The sections of processes.

ghost use Rattle.std.specs.Prelude.{◌≡◌, [], ◌∷◌, ◌++◌, map, IfOk, OnOk};
ghost use Rattle.std.specs.List.{filter_map};
ghost use Rattle.std.specs.Option.{option_and_then};
ghost use Rattle.vital_sections.specs.Sections as spec;
ghost use Rattle.vital_typed_statements.specs.Statements.{statement_of};

use crate::path_delay::{PathDelay, path_delay};
use crate::reading::StatementReader;
use crate::state_table::{StateTable, state_table};
use crate::timing_check::{TimingCheck, timing_check};
use sqlite_items::Items;
use std::alloc::{AllocError, Global};
use vital_actuals::Target;
use vital_names::{CellNames, Procedure, ProcessNames};
use vital_nodes::{Stmt, all_sequential};
use vital_operands::Faults;
use vital_typed_statements::{TypedStatement, Value, read_statement};

/// A statement of the functionality of a process.
#[derive(Drop)]
pub enum FunctionalStatement {
    /// An assignment of a value to a variable, or to an element of one.
    Assignment(Target, Value),
    StateTable(StateTable),
}

/// The statements of a process in its sections, each in the order of the text.
#[derive(Drop)]
pub struct Sections {
    /// The timing checks, which are executed where TimingChecksOn holds.
    pub checks: Items<TimingCheck>,
    pub functionality: Items<FunctionalStatement>,
    pub path_delays: Items<PathDelay>,
}

// ---- statements

/// The timing check that a statement is.
fn read_check<'a>(
    reader: &StatementReader<'a>,
    stmt: &'a Stmt,
) -> Result<Option<TimingCheck>, AllocError>
    ensures { IfOk result (λ check. check ≡ spec.check reader.now.names.now reader.now.faults.now reader.now.process.now stmt.now) }
{
    match reader.called(stmt) {
        Some((Procedure::Check(check), call)) => timing_check(&call, check),
        _ => Ok(None),
    }
}

/// The path delay that a statement is.
fn read_path_delay<'a>(
    reader: &StatementReader<'a>,
    stmt: &'a Stmt,
) -> Result<Option<PathDelay>, AllocError>
    ensures { IfOk result (λ delay. delay ≡ spec.path_delay_of reader.now.names.now reader.now.faults.now reader.now.process.now stmt.now) }
{
    match reader.called(stmt) {
        Some((Procedure::PathDelay(delay_type), call)) => path_delay(&call, delay_type),
        _ => Ok(None),
    }
}

/// The call of VitalStateTable that a statement is.
fn read_state_table<'a>(
    reader: &StatementReader<'a>,
    stmt: &'a Stmt,
) -> Result<Option<FunctionalStatement>, AllocError>
    ensures { IfOk result (λ found. found ≡ option_and_then (λ c. spec.state_table_called c.0 c.1) (spec.called reader.now.names.now reader.now.faults.now reader.now.process.now stmt.now)) }
{
    match reader.called(stmt) {
        Some((Procedure::StateTable, call)) => match state_table(&call)? {
            Some(table) => Ok(Some(FunctionalStatement::StateTable(table))),
            None => Ok(None),
        },
        _ => Ok(None),
    }
}

/// The assignment that a statement is.
fn read_assigned<'a>(
    reader: &StatementReader<'a>,
    stmt: &'a Stmt,
) -> Result<Option<FunctionalStatement>, AllocError>
    ensures { IfOk result (λ found. found ≡ option_and_then spec.assigned (statement_of reader.now.names.now reader.now.process.now reader.now.faults.now stmt.now).tree) }
{
    let mut broken = Vec::new(reader.alloc);
    let mut uses = Vec::new(reader.alloc);
    let statement = read_statement(
        &reader.reader(),
        reader.names,
        Some(reader.process),
        stmt,
        &mut broken,
        &mut uses,
    )?;
    match statement {
        Some(TypedStatement::Assignment(target, value)) => {
            Ok(Some(FunctionalStatement::Assignment(target, value)))
        }
        _ => Ok(None),
    }
}

/// The assignment or the call of VitalStateTable that a statement is.
fn read_functional<'a>(
    reader: &StatementReader<'a>,
    stmt: &'a Stmt,
) -> Result<Option<FunctionalStatement>, AllocError>
    ensures { IfOk result (λ found. found ≡ spec.functional_statement reader.now.names.now reader.now.faults.now reader.now.process.now stmt.now) }
{
    match stmt {
        Stmt::VariableAssignment(_, _) => read_assigned(reader, stmt),
        _ => read_state_table(reader, stmt),
    }
}

// ---- sections

/// Puts the timing check that a statement is at the end.
fn put_check<'a>(
    reader: &StatementReader<'a>,
    stmt: &'a Stmt,
    checks: &mut Vec<TimingCheck>,
) -> Result<(), AllocError>
    ensures { OnOk result (checks.new.items ≡ checks.old.items ++ filter_map (spec.check reader.now.names.now reader.now.faults.now reader.now.process.now) (stmt.now ∷ [])) }
{
    if let Some(check) = read_check(reader, stmt)? {
        checks.push(check)?;
    }
    Ok(())
}

/// The timing checks among statements.
fn checks_among<'a>(
    reader: &StatementReader<'a>,
    statements: &[&'a Stmt],
) -> Result<Vec<TimingCheck>, AllocError>
    ensures { IfOk result (λ checks. checks.items ≡ filter_map (spec.check reader.now.names.now reader.now.faults.now reader.now.process.now) (map (λ s. s.now) statements.now)) }
{
    let mut checks = Vec::new(reader.alloc);
    for stmt in statements {
        put_check(reader, *stmt, &mut checks)?;
    }
    Ok(checks)
}

/// Puts the assignment or the call of VitalStateTable that a statement is at the end.
fn put_functional<'a>(
    reader: &StatementReader<'a>,
    stmt: &'a Stmt,
    functionality: &mut Vec<FunctionalStatement>,
) -> Result<(), AllocError>
    ensures { OnOk result (functionality.new.items ≡ functionality.old.items ++ filter_map (spec.functional_statement reader.now.names.now reader.now.faults.now reader.now.process.now) (stmt.now ∷ [])) }
{
    if let Some(statement) = read_functional(reader, stmt)? {
        functionality.push(statement)?;
    }
    Ok(())
}

/// The assignments and the calls of VitalStateTable among statements.
fn functionality_among<'a>(
    reader: &StatementReader<'a>,
    statements: &[&'a Stmt],
) -> Result<Vec<FunctionalStatement>, AllocError>
    ensures { IfOk result (λ functionality. functionality.items ≡ filter_map (spec.functional_statement reader.now.names.now reader.now.faults.now reader.now.process.now) (map (λ s. s.now) statements.now)) }
{
    let mut functionality = Vec::new(reader.alloc);
    for stmt in statements {
        put_functional(reader, *stmt, &mut functionality)?;
    }
    Ok(functionality)
}

/// Puts the path delay that a statement is at the end.
fn put_path_delay<'a>(
    reader: &StatementReader<'a>,
    stmt: &'a Stmt,
    path_delays: &mut Vec<PathDelay>,
) -> Result<(), AllocError>
    ensures { OnOk result (path_delays.new.items ≡ path_delays.old.items ++ filter_map (spec.path_delay_of reader.now.names.now reader.now.faults.now reader.now.process.now) (stmt.now ∷ [])) }
{
    if let Some(delay) = read_path_delay(reader, stmt)? {
        path_delays.push(delay)?;
    }
    Ok(())
}

/// The path delays among statements.
fn path_delays_among<'a>(
    reader: &StatementReader<'a>,
    statements: &[&'a Stmt],
) -> Result<Vec<PathDelay>, AllocError>
    ensures { IfOk result (λ path_delays. path_delays.items ≡ filter_map (spec.path_delay_of reader.now.names.now reader.now.faults.now reader.now.process.now) (map (λ s. s.now) statements.now)) }
{
    let mut path_delays = Vec::new(reader.alloc);
    for stmt in statements {
        put_path_delay(reader, *stmt, &mut path_delays)?;
    }
    Ok(path_delays)
}

/// The sections that statements make up.
fn sections_of<'a>(
    reader: &StatementReader<'a>,
    statements: &[&'a Stmt],
) -> Result<Sections, AllocError>
    ensures { IfOk result (λ sections. sections ≡ spec.sections_of reader.now.names.now reader.now.faults.now reader.now.process.now (map (λ s. s.now) statements.now)) }
{
    let checks = checks_among(reader, statements)?;
    let functionality = functionality_among(reader, statements)?;
    let path_delays = path_delays_among(reader, statements)?;
    Ok(Sections {
        checks: Items::from_vec(checks),
        functionality: Items::from_vec(functionality),
        path_delays: Items::from_vec(path_delays),
    })
}

/// The statements of a process in its sections. It takes time in proportion to the process.
pub fn read_sections<'a>(
    alloc: Global,
    names: &'a CellNames<'a>,
    faults: &'a Faults<'a>,
    process: &'a ProcessNames<'a>,
) -> Result<Sections, AllocError>
    ensures { IfOk result (λ sections. sections ≡ spec.sections names.now faults.now process.now) }
{
    let reader = StatementReader {
        alloc,
        names,
        faults,
        process,
    };
    let statements = all_sequential(alloc, process.process().statements.as_slice())?;
    sections_of(&reader, &statements)
}
