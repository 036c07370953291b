//! The limits that a node passes.

ghost use Rattle.std.specs.Prelude.{◌≡◌, ◌++◌, IfOk, OnOk};
ghost use Rattle.std.specs.List.{flat_map};
ghost use Rattle.std.specs.Option.{option_copied};
ghost use Rattle.vital_limits.specs.NodeLimits as spec;
ghost use Rattle.vital_limits.specs.declared.passed.CellLimit.TheVariants.{Delay};
ghost use Rattle.vital_nodes.specs.Nodes.{Expression};
ghost use Rattle.vital_nodes.specs.Seen.{seen};

use crate::counts::{listed, listed_in, longest};
use crate::passed::{CellLimit, PassedLimit};
use std::alloc::AllocError;
use vital_base::Place;
use vital_calls::call_of;
use vital_names::{LibraryNames, Predeclared, Procedure, TypeName};
use vital_nodes::{
    Choice, Conc, Decl, Expr, HasPlace, Item, Node, Object, Physical, Reference, Stmt, call,
    formal, identifier_of, is_constant,
};
use vital_timing::UnitOfTime;

/// A table has at most so many rows.
const MOST_ROWS: usize = 128;

/// A table has at most so many columns.
const MOST_COLUMNS: usize = 32;

/// A call of a path delay has at most so many paths.
const MOST_PATHS: usize = 64;

/// Puts a limit at the end if it is passed.
pub fn put_if(
    limits: &mut Vec<PassedLimit>,
    is_passed: bool,
    limit: CellLimit,
    place: Place,
) -> Result<(), AllocError>
    ensures { OnOk result (limits.new.items ≡ limits.old.items ++ spec.if_passed is_passed limit place) }
{
    if is_passed {
        limits.push(PassedLimit { place, limit })?;
    }
    Ok(())
}

// ---- tables

/// Puts the limits that a declaration passes at the end.
pub fn put_of_declaration(
    limits: &mut Vec<PassedLimit>,
    library: &LibraryNames<'_>,
    decl: &Decl,
) -> Result<(), AllocError>
    ensures { OnOk result (limits.new.items ≡ limits.old.items ++ spec.limits_of_declaration decl.now) }
{
    match decl {
        Decl::Object(object) => put_of_rows(
            limits,
            object.identifier.place,
            table_rows(library, object),
        ),
        _ => Ok(()),
    }
}

/// Whether a type of a name is one of tables.
fn is_table_type(library: &LibraryNames<'_>, name: &Reference) -> bool
    ensures { result ≡ spec.is_table_type name.now }
{
    matches!(
        library.type_named(name),
        Some(TypeName::TruthTable | TypeName::StateTable)
    )
}

/// Whether an object is a constant of a type of tables.
fn is_table(library: &LibraryNames<'_>, object: &Object) -> bool
    ensures { result ≡ spec.is_table object.now }
{
    is_constant(object) && is_table_type(library, &object.parts.get().subtype.name)
}

/// The items of the value of an object.
fn items_of(object: &Object) -> &[Item]
    ensures { result.now ≡ spec.items_of object.now }
{
    match &object.parts.get().value {
        Some(value) => listed(value),
        None => &[],
    }
}

/// The rows of an object, if it is a table.
pub fn table_rows<'a>(library: &LibraryNames<'_>, object: &'a Object) -> &'a [Item]
    ensures { result.now ≡ spec.table_rows object.now }
{
    if is_table(library, object) {
        items_of(object)
    } else {
        &[]
    }
}

/// Whether there are too many rows.
pub fn are_too_many(rows: &[Item]) -> bool
    ensures { result ≡ spec.are_too_many rows.now }
{
    MOST_ROWS < rows.len()
}

/// Whether the longest of rows has too many items.
pub fn are_too_long(rows: &[Item]) -> bool
    ensures { result ≡ spec.are_too_long rows.now }
{
    MOST_COLUMNS < longest(rows)
}

/// Whether an object is a table that passes a limit. It counts the items of at most 128 rows.
pub fn is_long_table(library: &LibraryNames<'_>, object: &Object) -> bool
    ensures { result ≡ spec.is_long_table object.now }
{
    let rows = table_rows(library, object);
    are_too_many(rows) || are_too_long(rows)
}

/// Puts the limits of the rows of a table at the end, where it is declared.
fn put_of_rows(limits: &mut Vec<PassedLimit>, place: Place, rows: &[Item]) -> Result<(), AllocError>
    ensures { OnOk result (limits.new.items ≡ limits.old.items ++ spec.limits_of_rows place rows.now) }
{
    put_if(limits, are_too_many(rows), CellLimit::Rows, place)?;
    put_if(limits, are_too_long(rows), CellLimit::Columns, place)
}

// ---- paths

/// Whether a name is that of a path delay, read by its text.
fn is_path_delay(library: &LibraryNames<'_>, name: &[u8]) -> bool
    ensures { result ≡ spec.is_path_delay name.now }
{
    matches!(
        library.predeclared(name),
        Some(Predeclared::Procedure(Procedure::PathDelay(_)))
    )
}

/// Puts the limits of a concurrent statement at the end.
pub fn put_of_concurrent(
    limits: &mut Vec<PassedLimit>,
    library: &LibraryNames<'_>,
    conc: &Conc,
) -> Result<(), AllocError>
    ensures { OnOk result (limits.new.items ≡ limits.old.items ++ spec.limits_of_concurrent conc.now) }
{
    match call(conc) {
        Some(name) => put_of_call(limits, library, name),
        None => Ok(()),
    }
}

/// Puts the limits of a statement of a process at the end.
pub fn put_of_sequential(
    limits: &mut Vec<PassedLimit>,
    library: &LibraryNames<'_>,
    stmt: &Stmt,
) -> Result<(), AllocError>
    ensures { OnOk result (limits.new.items ≡ limits.old.items ++ spec.limits_of_sequential stmt.now) }
{
    match stmt {
        Stmt::Call(_, name) => put_of_call(limits, library, name),
        _ => Ok(()),
    }
}

/// Puts the limits of a call at the end.
fn put_of_call(
    limits: &mut Vec<PassedLimit>,
    library: &LibraryNames<'_>,
    name: &Reference,
) -> Result<(), AllocError>
    ensures { OnOk result (limits.new.items ≡ limits.old.items ++ spec.limits_of_call name.now) }
{
    match call_of(name) {
        Some(call) if is_path_delay(library, call.identifier.name.as_slice()) => {
            put_of_actuals(limits, call.items)
        }
        _ => Ok(()),
    }
}

/// Whether what stands before `=>` is the formal Paths.
fn is_paths(formal: &Choice) -> bool
    ensures { result ≡ spec.is_paths formal.now }
{
    match formal {
        Choice::Value(value) => match identifier_of(value) {
            Some(identifier) => identifier.name.as_slice() == b"paths".as_slice(),
            None => false,
        },
        Choice::Range(_) => false,
    }
}

/// Puts the limits of the actuals of a call of a path delay at the end.
fn put_of_actuals(limits: &mut Vec<PassedLimit>, items: &[Item]) -> Result<(), AllocError>
    ensures { OnOk result (limits.new.items ≡ limits.old.items ++ flat_map spec.limits_of_actual items.now) }
{
    for item in items {
        put_of_actual(limits, item)?;
    }
    Ok(())
}

/// Puts the limit of an actual at the end, if it is one of Paths.
fn put_of_actual(limits: &mut Vec<PassedLimit>, item: &Item) -> Result<(), AllocError>
    ensures { OnOk result (limits.new.items ≡ limits.old.items ++ spec.limits_of_actual item.now) }
{
    match formal(item) {
        Some(choice) if is_paths(choice) => put_of_paths(limits, listed_in(item)),
        _ => Ok(()),
    }
}

/// Puts the limit of paths at the end: at the first that is one too many.
fn put_of_paths(limits: &mut Vec<PassedLimit>, paths: &[Item]) -> Result<(), AllocError>
    ensures { OnOk result (limits.new.items ≡ limits.old.items ++ spec.limits_of_paths paths.now) }
{
    put_at(limits, paths.get(MOST_PATHS))
}

/// Puts the limit of paths at the end, at the one too many, if there is one.
fn put_at(limits: &mut Vec<PassedLimit>, path: Option<&Item>) -> Result<(), AllocError>
    ensures { OnOk result (limits.new.items ≡ limits.old.items ++ spec.limits_at (option_copied path.entry)) }
{
    match path {
        Some(path) => put_if(limits, true, CellLimit::Paths, path.place()),
        None => Ok(()),
    }
}

// ---- times

/// Whether the number of a time literal is worth too much. A number before another identifier than a unit is no time.
fn is_too_long(physical: &Physical) -> bool
    ensures { result ≡ spec.is_too_long physical.now }
{
    match UnitOfTime::named(physical.unit.name.as_slice()) {
        Some(unit) => unit.literal_time(physical.number.as_slice()).is_none(),
        None => false,
    }
}

/// Puts the limit of a time literal at the end.
fn put_of_time(limits: &mut Vec<PassedLimit>, physical: &Physical) -> Result<(), AllocError>
    ensures { OnOk result (limits.new.items ≡ limits.old.items ++ spec.if_passed (spec.is_too_long physical.now) Delay physical.now.place) }
{
    put_if(
        limits,
        is_too_long(physical),
        CellLimit::Delay,
        physical.place,
    )
}

/// Puts the limit of an expression at the end, which only a time literal passes.
#[tactic(auto, unfolding(crate::specs::NodeLimits::limits_of_node))]
pub fn put_of_expression(limits: &mut Vec<PassedLimit>, expr: &Expr) -> Result<(), AllocError>
    ensures { OnOk result (limits.new.items ≡ limits.old.items ++ spec.limits_of_node (Expression expr.now)) }
{
    match expr {
        Expr::Physical(physical) => put_of_time(limits, physical.get()),
        _ => Ok(()),
    }
}

/// Whether a node is a time literal that is worth too much.
pub fn is_too_long_node(node: Node<'_>) -> bool
    ensures { result ≡ spec.is_too_long_node (seen node.entry) }
{
    match node {
        Node::Expression(Expr::Physical(physical)) => is_too_long(physical.get()),
        _ => false,
    }
}
