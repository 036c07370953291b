//! Expressions where a type is asked of them.

use crate::library::first_cell;
use std::alloc::{AllocError, Global};
use vital_base::Place;
use vital_expr::{Reader, boolean, delay, level, text as text_of, time, vector};
use vital_library::Library;
use vital_names::{CellNames, CellUnit, LibraryNames, ProcessNames};
use vital_nodes::{Arch, Conc, Entity, Expr, Process, Stmt};
use vital_operands::{Faults, Position};
use vital_timing::DelayType;

/// The process that is the only statement of an architecture.
fn process_of(arch: &Arch) -> Option<&Process> {
    match arch.statements.as_slice() {
        [Conc::Process(_, _, process)] => Some(process),
        _ => None,
    }
}

/// The value of the assignment that is the only statement of a process.
fn value_of(process: &Process) -> Option<&Expr> {
    match process.statements.as_slice() {
        [Stmt::VariableAssignment(_, assignment)] => Some(&assignment.value),
        _ => None,
    }
}

/// The type of delays that a word names.
fn delay_type_of(word: &str) -> DelayType {
    match word {
        "delay" => DelayType::One,
        "delay01" => DelayType::Two,
        _ => DelayType::Six,
    }
}

/// Whether an expression is of the form that is asked; a vector is to have two elements. Where it breaks clauses is put to a list.
fn is_typed(
    reader: &Reader<'_>,
    asked: &str,
    expr: &Expr,
    broken: &mut Vec<Place>,
) -> Result<bool, AllocError> {
    match asked {
        "level" => Ok(level(reader, expr, broken)?.is_some()),
        "vector" => Ok(vector(reader, expr, Some(2), broken)?.is_some()),
        "boolean" => Ok(boolean(reader, expr, broken)?.is_some()),
        "time" => Ok(time(reader, expr, broken)?.is_some()),
        "delay" | "delay01" | "delay01z" => {
            Ok(delay(reader, delay_type_of(asked), expr, broken)?.is_some())
        }
        "text" => Ok(text_of(reader, expr, broken)?.is_some()),
        _ => Ok(false),
    }
}

/// Puts the columns at which an expression breaks a clause, or that it is typed.
fn put_columns(
    text: &mut String,
    reader: &Reader<'_>,
    asked: &str,
    expr: &Expr,
) -> Result<(), AllocError> {
    let mut broken = Vec::new(reader.alloc);
    if is_typed(reader, asked, expr, &mut broken)? && broken.is_empty() {
        return text.push_str("typed\n");
    }
    for place in &broken {
        write!(text, "column {}\n", place.column)?;
    }
    Ok(())
}

/// Puts what comes of the value that the process of a cell of a library assigns.
fn put_in_cell(
    alloc: Global,
    text: &mut String,
    library: &Library,
    cell: (&Entity, &Arch),
    asked: &str,
) -> Result<(), AllocError> {
    let (entity, arch) = cell;
    let Some(process) = process_of(arch) else {
        return text.push_str("no process\n");
    };
    let Some(expr) = value_of(process) else {
        return text.push_str("no expression\n");
    };
    let outside = LibraryNames::new(alloc, library)?;
    let names = CellNames::new(alloc, &outside, entity, Some(arch))?;
    let process_names = ProcessNames::new(alloc, process)?;
    let faults = Faults::new(alloc, &[])?;
    let reader = Reader {
        alloc,
        position: Position::Statement(&names, CellUnit::Architecture, Some(&process_names)),
        faults: &faults,
    };
    put_columns(text, &reader, asked, expr)
}

/// Puts what comes of the expression in the cell of a library where a type is asked of it.
pub fn put_expression(
    alloc: Global,
    text: &mut String,
    library: &Library,
    words: &[String],
) -> Result<(), AllocError> {
    match (words, first_cell(library)) {
        ([asked], Some((entity, Some(arch)))) => {
            put_in_cell(alloc, text, library, (entity, arch), asked.as_str())
        }
        _ => text.push_str("no expression\n"),
    }
}
