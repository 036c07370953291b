//! Calls that make tables wrong: a symbol stands in a column that may not have it.

ghost use Rattle.std.specs.Prelude.{◌≡◌, ◌||◌, map, IfOk};
ghost use Rattle.vital_declaration_clauses.specs.Scopes as scopes;
ghost use Rattle.vital_expr.specs.Seen.{lent};
ghost use Rattle.vital_package_constants.specs.Tables as spec;
ghost use Rattle.vital_nodes.specs.Seen.{seen};

use std::alloc::{AllocError, Global};
use vital_declaration_clauses::Scope;
use vital_expr::Reader;
use vital_limits::is_long_table;
use vital_names::LibraryNames;
use vital_nodes::{Node, Object};
use vital_table_uses::{TableUse, UsedTable, truth_use_at};
use vital_tables::{Table, table_of};

/// Whether a call makes a table wrong. A value that is no table of symbols breaks the clause in any case.
pub fn is_wrong_in(
    alloc: Global,
    used: &TableUse,
    scope: Scope<'_>,
    object: &Object,
) -> Result<bool, AllocError>
    ensures { IfOk result (λ is_wrong. is_wrong ≡ spec.is_wrong_in used.now (scopes.lent scope.entry) object.now) }
{
    let table: Option<Table> = match &object.parts.get().value {
        Some(value) => table_of(alloc, scope, value)?,
        None => None,
    };
    match table {
        Some(table) => Ok(!table.allows(used.kind, used.inputs, used.states)),
        None => Ok(false),
    }
}

/// Whether a call makes the constant of a package wrong that has this number.
pub fn is_wrong_package(
    alloc: Global,
    library: &LibraryNames<'_>,
    used: &TableUse,
    number: usize,
) -> Result<bool, AllocError>
    ensures { IfOk result (λ is_wrong. is_wrong ≡ spec.is_wrong_package library.now used.now number) }
{
    match library.constants().get(number) {
        Some(object) => is_wrong_in(alloc, used, Scope::Package(library, number), object),
        None => Ok(false),
    }
}

/// Whether the constant of a package that has this number is a table that passes a limit.
fn is_long_package(library: &LibraryNames<'_>, number: usize) -> bool
    ensures { result ≡ spec.is_long_package library.now number }
{
    match library.constants().get(number) {
        Some(object) => is_long_table(library, object),
        None => false,
    }
}

/// Whether a call in the value of a constant of a package makes the table wrong that it uses, which is one of a package. Of a table
/// that passes a limit nothing is asked, so that it reads at most 128 rows of 32 symbols.
fn makes_wrong(
    alloc: Global,
    library: &LibraryNames<'_>,
    used: &TableUse,
) -> Result<bool, AllocError>
    ensures { IfOk result (λ is_wrong. is_wrong ≡ spec.makes_wrong library.now used.now used.now.table) }
{
    match used.table {
        UsedTable::Cell(_) => Ok(false),
        UsedTable::Package(number) => {
            if is_long_package(library, number) {
                Ok(false)
            } else {
                is_wrong_package(alloc, library, used, number)
            }
        }
    }
}

/// Whether the call at a node makes the table wrong that it uses.
fn makes_wrong_at(
    reader: &Reader<'_>,
    library: &LibraryNames<'_>,
    node: Node<'_>,
) -> Result<bool, AllocError>
    ensures { IfOk result (λ is_wrong. is_wrong ≡ spec.makes_wrong_at library.now (lent reader.now) (seen node.entry)) }
{
    match truth_use_at(reader, node)? {
        Some(used) => makes_wrong(reader.alloc, library, &used),
        None => Ok(false),
    }
}

/// Whether the call at a node makes the table wrong that it uses, or one before it does.
fn makes_wrong_or(
    before: bool,
    reader: &Reader<'_>,
    library: &LibraryNames<'_>,
    node: Node<'_>,
) -> Result<bool, AllocError>
    ensures { IfOk result (λ is_wrong. is_wrong ≡ (spec.makes_wrong_at library.now (lent reader.now) (seen node.entry) || before)) }
{
    let is_wrong = makes_wrong_at(reader, library, node)?;
    Ok(is_wrong || before)
}

/// Whether a call among nodes makes the table wrong that it uses.
pub fn has_wrong_table(
    reader: &Reader<'_>,
    library: &LibraryNames<'_>,
    nodes: &[Node<'_>],
) -> Result<bool, AllocError>
    ensures { IfOk result (λ is_wrong. is_wrong ≡ spec.has_wrong_table library.now (lent reader.now) (map seen nodes.now)) }
{
    let mut is_wrong = false;
    for node in nodes {
        is_wrong = makes_wrong_or(is_wrong, reader, library, *node)?;
    }
    Ok(is_wrong)
}
