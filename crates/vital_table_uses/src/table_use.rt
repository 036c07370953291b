//! The tables that calls use, and how their columns are parted there.

ghost use Rattle.std.specs.Prelude.{◌≡◌, IfOk};
ghost use Rattle.vital_expr.specs.Seen.{lent};
ghost use Rattle.vital_names.specs.Meanings as meanings;
ghost use Rattle.vital_nodes.specs.Seen.{seen};
ghost use Rattle.vital_operands.specs.Calls.{lent_actuals};
ghost use Rattle.vital_operands.specs.Named.{where_holds as where_holds'};
ghost use Rattle.vital_operands.specs.Seen as operands;
ghost use Rattle.vital_table_uses.specs.TableUses as spec;

use std::alloc::AllocError;
use vital_base::Place;
use vital_declarations::TableType;
use vital_expr::{Reader, length_of, vector};
use vital_names::{Declared, Meaning};
use vital_nodes::{Expr, Node, Reference, identifier_of};
use vital_operands::{Position, TableActuals, is_table, table_actuals};

/// A constant that is a table.
#[derive(Clone, Copy, PartialEq, Eq)]
pub enum UsedTable {
    /// One of the cell, by the place of its identifier.
    Cell(Place),
    /// One of a package, by its number among the constants of all packages of the library, from 0.
    Package(usize),
}

/// A call that uses a table.
#[derive(Clone, Copy, PartialEq, Eq)]
pub struct TableUse {
    pub table: UsedTable,
    pub kind: TableType,
    /// How many columns of the table are inputs.
    pub inputs: usize,
    /// How many columns behind them are states.
    pub states: usize,
}

/// A table, where a test of it holds.
fn where_holds(holds: bool, table: UsedTable) -> Option<UsedTable>
    ensures { result ≡ where_holds' holds table }
{
    if holds { Some(table) } else { None }
}

/// The constant of tables of a kind that a meaning is.
fn used_meaning(position: &Position<'_>, kind: TableType, meaning: Meaning<'_>) -> Option<UsedTable>
    ensures { result ≡ spec.used_meaning kind (meanings.lent meaning.entry) }
{
    match meaning {
        Meaning::Declared(Declared::Object(object)) => {
            where_holds(
                is_table(position.library(), kind, object),
                UsedTable::Cell(object.identifier.place),
            )
        }
        Meaning::Constant(constant) => {
            where_holds(
                is_table(position.library(), kind, constant.object),
                UsedTable::Package(constant.number),
            )
        }
        _ => None,
    }
}

/// The table of a kind that an expression names.
pub fn used_table(position: &Position<'_>, kind: TableType, expr: &Expr) -> Option<UsedTable>
    ensures { result ≡ spec.used_table kind (operands.lent position.now) expr.now }
{
    match identifier_of(expr) {
        Some(identifier) => match position.meaning(identifier) {
            Some(meaning) => used_meaning(position, kind, meaning),
            None => None,
        },
        None => None,
    }
}

/// How many levels a vector has that stands as the inputs of a table, if it is of its form.
fn inputs_given(reader: &Reader<'_>, expr: &Expr) -> Result<Option<usize>, AllocError>
    ensures { IfOk result (λ count. count ≡ spec.inputs_given (lent reader.now) expr.now) }
{
    let mut unused = Vec::new(reader.alloc);
    match vector(reader, expr, None, &mut unused)? {
        Some(inputs) => Ok(Some(length_of(&inputs))),
        None => Ok(None),
    }
}

/// The use of a truth table, if it is one and has so many inputs.
fn truth_use_with(table: Option<UsedTable>, inputs: Option<usize>) -> Option<TableUse>
    ensures { result ≡ spec.truth_use_with table inputs }
{
    match table {
        Some(table) => match inputs {
            Some(inputs) => Some(TableUse {
                table,
                kind: TableType::Truth,
                inputs,
                states: 0,
            }),
            None => None,
        },
        None => None,
    }
}

/// The use of a truth table with these actuals.
fn truth_use_of(
    reader: &Reader<'_>,
    actuals: TableActuals<'_>,
) -> Result<Option<TableUse>, AllocError>
    ensures { IfOk result (λ used. used ≡ spec.truth_use_of (lent reader.now) (lent_actuals actuals.entry)) }
{
    let inputs = inputs_given(reader, actuals.inputs)?;
    let table = used_table(&reader.position, TableType::Truth, actuals.table);
    Ok(truth_use_with(table, inputs))
}

/// The use of a truth table that a name is as a call.
fn truth_use(reader: &Reader<'_>, name: &Reference) -> Result<Option<TableUse>, AllocError>
    ensures { IfOk result (λ used. used ≡ spec.truth_use (lent reader.now) name.now) }
{
    match reader.position.table_items(name) {
        Some(items) => match table_actuals(items) {
            Some(actuals) => truth_use_of(reader, actuals),
            None => Ok(None),
        },
        None => Ok(None),
    }
}

/// The use of a truth table that a node is.
pub fn truth_use_at(reader: &Reader<'_>, node: Node<'_>) -> Result<Option<TableUse>, AllocError>
    ensures { IfOk result (λ used. used ≡ spec.truth_use_at (lent reader.now) (seen node.entry)) }
{
    match node {
        Node::Name(name) => truth_use(reader, name),
        _ => Ok(None),
    }
}
