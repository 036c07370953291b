//! L1.11: the timing checks of processes.

ghost use Rattle.std.specs.Prelude.{◌≡◌, [], ◌++◌, IfOk, OnOk};
ghost use Rattle.std.specs.Option.{option_map_or};
ghost use Rattle.vital_nodes.specs.Places.{place_of_stmt};
ghost use Rattle.vital_statements.specs.Lists.{each};
ghost use Rattle.vital_statements.specs.Clauses.{clause_11, is_check_call, is_check_form, is_timing_checks_on, only_branch_is_checks, others_than_checks, places_11, places_11_at, places_11_in, places_of_if};
ghost use Rattle.vital_statements.specs.Statements.{as_if, statements_in_if};

use crate::call::{call_of_stmt, procedure_of};
use crate::parentheses::bare_identifier;
use crate::places::put_if;
use crate::statement::{as_if, as_process, statements_of};
use std::alloc::{AllocError, Global};
use vital_base::Place;
use vital_names::{CellNames, Procedure, ProcessNames};
use vital_nodes::{Branch, Conc, Expr, HasPlace, If, Process, Stmt, all_concurrent};

/// The places where L1.11 is broken: each `if` among the statements of a process after the first, or with another form than
/// `if TimingChecksOn` with no other branch, and each other statement in an `if` than a call of a check.
pub fn clause_11(alloc: Global, names: &CellNames<'_>) -> Result<Vec<Place>, AllocError>
    ensures { IfOk result (λ places. places.items ≡ clause_11 names.now) }
{
    let concs = all_concurrent(alloc, statements_of(names))?;
    let mut places = Vec::new(alloc);
    for conc in &concs {
        put_places(alloc, &mut places, names, conc)?;
    }
    Ok(places)
}

/// Puts the places in a concurrent statement at the end.
fn put_places(
    alloc: Global,
    places: &mut Vec<Place>,
    names: &CellNames<'_>,
    conc: &Conc,
) -> Result<(), AllocError>
    ensures { OnOk result (places.new.items ≡ places.old.items ++ places_11_in names.now conc.now) }
{
    match as_process(conc) {
        Some(process) => put_process(alloc, places, names, process),
        None => Ok(()),
    }
}

/// Puts the places in a process at the end.
fn put_process(
    alloc: Global,
    places: &mut Vec<Place>,
    names: &CellNames<'_>,
    process: &Process,
) -> Result<(), AllocError>
    ensures { OnOk result (places.new.items ≡ places.old.items ++ places_11 names.now process.now) }
{
    let process_names = ProcessNames::new(alloc, process)?;
    put_statements(places, names, &process_names, process.statements.as_slice())
}

/// Puts the places of statements of a process at the end.
fn put_statements(
    places: &mut Vec<Place>,
    names: &CellNames<'_>,
    process: &ProcessNames<'_>,
    statements: &[Stmt],
) -> Result<(), AllocError>
    ensures { OnOk result (places.new.items ≡ places.old.items ++ each (places_11_at names.now process.now) statements.now) }
{
    let mut has_if = false;
    for stmt in statements {
        put_statement(places, names, process, has_if, stmt)?;
        has_if |= as_if(stmt).is_some();
    }
    Ok(())
}

/// Puts the places of a statement of a process at the end, before which an `if` stands or not.
fn put_statement(
    places: &mut Vec<Place>,
    names: &CellNames<'_>,
    process: &ProcessNames<'_>,
    has_if: bool,
    stmt: &Stmt,
) -> Result<(), AllocError>
    ensures { OnOk result (places.new.items ≡ places.old.items ++ option_map_or (places_of_if names.now process.now has_if (place_of_stmt stmt.now)) (as_if stmt.now) []) }
{
    match as_if(stmt) {
        Some(statement) => {
            put_if(places, has_if || !is_check_form(statement), stmt.place())?;
            put_statements_in_if(places, names, process, statement)
        }
        None => Ok(()),
    }
}

/// Puts the places of the statements in an `if` that are no calls of checks at the end.
fn put_statements_in_if(
    places: &mut Vec<Place>,
    names: &CellNames<'_>,
    process: &ProcessNames<'_>,
    statement: &If,
) -> Result<(), AllocError>
    ensures { OnOk result (places.new.items ≡ places.old.items ++ others_than_checks names.now process.now (statements_in_if statement.now)) }
{
    for branch in statement.branches.as_slice() {
        put_others(places, names, process, branch.statements.as_slice())?;
    }
    match &statement.otherwise {
        Some(statements) => put_others(places, names, process, statements.as_slice()),
        None => Ok(()),
    }
}

/// Puts the places of the statements that are no calls of checks at the end.
fn put_others(
    places: &mut Vec<Place>,
    names: &CellNames<'_>,
    process: &ProcessNames<'_>,
    statements: &[Stmt],
) -> Result<(), AllocError>
    ensures { OnOk result (places.new.items ≡ places.old.items ++ others_than_checks names.now process.now statements.now) }
{
    for stmt in statements {
        put_if(places, !is_check_call(names, process, stmt), stmt.place())?;
    }
    Ok(())
}

/// Whether a statement of a process is a call of a check.
fn is_check_call(names: &CellNames<'_>, process: &ProcessNames<'_>, stmt: &Stmt) -> bool
    ensures { result ≡ is_check_call names.now process.now stmt.now }
{
    match call_of_stmt(stmt) {
        Some(call) => matches!(
            procedure_of(names, Some(process), call),
            Some(Procedure::Check(_))
        ),
        None => false,
    }
}

/// Whether an `if` has the condition TimingChecksOn and no other branch.
fn is_check_form(statement: &If) -> bool
    ensures { result ≡ is_check_form statement.now }
{
    only_branch_is_checks(statement.branches.as_slice()) && statement.otherwise.is_none()
}

/// Whether there is one branch, with the condition TimingChecksOn.
fn only_branch_is_checks(branches: &[Branch]) -> bool
    ensures { result ≡ only_branch_is_checks branches.now }
{
    match branches {
        [branch] => is_timing_checks_on(&branch.condition),
        _ => false,
    }
}

/// Whether an expression is the identifier TimingChecksOn, in parentheses or not.
fn is_timing_checks_on(condition: &Expr) -> bool
    ensures { result ≡ is_timing_checks_on condition.now }
{
    match bare_identifier(condition) {
        Some(identifier) => identifier.name.as_slice() == b"timingcheckson".as_slice(),
        None => false,
    }
}
