//! Tables as rows of symbols.

ghost use Rattle.std.specs.Prelude.{◌≡◌, map, IfOk};
ghost use Rattle.std.specs.List.{list_all};
ghost use Rattle.std.specs.Option.{option_map};
ghost use Rattle.vital_declaration_clauses.specs.Scopes.{lent};
ghost use Rattle.vital_names.specs.Meanings as meanings;
ghost use Rattle.vital_tables.specs.Symbols as symbols;
ghost use Rattle.vital_tables.specs.Tables as spec;

use crate::symbol::allows_symbol;
use sqlite_items::Items;
use std::alloc::{AllocError, Global};
use std::marker::Model;
use vital_declaration_clauses::{Scope, is_symbol};
use vital_declarations::{TableType, character, row_items};
use vital_names::{Declared, LibraryNames, Meaning};
use vital_nodes::{Expr, Item, Object, identifier_of, listed_items, positional_value};

/// A table, as the symbols of its rows. Contracts see it as these.
#[derive(Drop)]
pub struct Table {
    rows: Items<Items<u8>>,
}

impl Model for Table {
    ghost use Rattle.std.specs.Prelude.{ℕ, List};

    ghost Value = { List (List ℕ) };

    ghost view = { λ t. t.rows };
}

/// Whether each symbol of a row is one that its column may have.
fn allows_row(kind: TableType, inputs: usize, states: usize, row: &[u8]) -> bool
    ensures { result ≡ symbols.allows_row kind inputs states row.now }
{
    row.iter().enumerate().all(|(column, symbol)| allows_symbol(
        kind, inputs, states, column, *symbol,
    ))
}

impl Table {
    /// The rows, each as the symbols of its columns.
    pub fn rows(&self) -> &[Items<u8>]
        ensures { result.now ≡ self.now }
    {
        self.rows.as_slice()
    }

    /// Whether each symbol is one that its column may have, where so many columns are inputs and so many behind them are states. It
    /// takes time in proportion to the symbols.
    pub fn allows(&self, kind: TableType, inputs: usize, states: usize) -> bool
        ensures { result ≡ symbols.allows kind inputs states self.now }
    {
        self.rows
            .as_slice()
            .iter()
            .all(|row| allows_row(kind, inputs, states, row.as_slice()))
    }
}

/// The symbol that a constant of VitalTableSymbolType is.
fn symbol_of_constant(library: &LibraryNames<'_>, object: &Object) -> Option<u8>
    ensures { result ≡ spec.symbol_of_constant object.now }
{
    if !is_symbol(library, object) {
        return None;
    }
    match &object.parts.get().value {
        Some(value) => character(value),
        None => None,
    }
}

/// The symbol that a meaning is.
fn symbol_meant(library: &LibraryNames<'_>, meaning: Meaning<'_>) -> Option<u8>
    ensures { result ≡ spec.symbol_meant (meanings.lent meaning.entry) }
{
    match meaning {
        Meaning::Declared(Declared::Object(object)) => symbol_of_constant(library, object),
        Meaning::Constant(constant) => symbol_of_constant(library, constant.object),
        _ => None,
    }
}

/// The symbol that an expression names.
fn symbol_named(scope: Scope<'_>, value: &Expr) -> Option<u8>
    ensures { result ≡ spec.symbol_named (lent scope.entry) value.now }
{
    match identifier_of(value) {
        Some(identifier) => match scope.meaning(identifier.name.as_slice()) {
            Some(meaning) => symbol_meant(scope.library(), meaning),
            None => None,
        },
        None => None,
    }
}

/// The symbol that an expression is: a character literal, or the name of a symbol.
fn symbol_in(scope: Scope<'_>, value: &Expr) -> Option<u8>
    ensures { result ≡ spec.symbol_in (lent scope.entry) value.now }
{
    match character(value) {
        Some(symbol) => Some(symbol),
        None => symbol_named(scope, value),
    }
}

/// The symbol of an item of a row.
fn symbol_at(scope: Scope<'_>, item: &Item) -> Option<u8>
    ensures { result ≡ spec.symbol_at (lent scope.entry) item.now }
{
    match positional_value(item) {
        Some(value) => symbol_in(scope, value),
        None => None,
    }
}

/// The symbols of the items of a row, if each is one.
fn symbols_of_items(
    alloc: Global,
    scope: Scope<'_>,
    items: &[Item],
) -> Result<Option<Items<u8>>, AllocError>
    ensures { IfOk result (λ row. row ≡ spec.symbols_of_items (lent scope.entry) items.now) }
{
    let mut row = Vec::new(alloc);
    for item in items {
        match symbol_at(scope, item) {
            Some(symbol) => row.push(symbol)?,
            None => return Ok(None),
        }
    }
    Ok(Some(Items::from_vec(row)))
}

/// The symbols of a row.
fn row_of(alloc: Global, scope: Scope<'_>, item: &Item) -> Result<Option<Items<u8>>, AllocError>
    ensures { IfOk result (λ row. row ≡ spec.row_of (lent scope.entry) item.now) }
{
    match row_items(item) {
        Some(items) => symbols_of_items(alloc, scope, items),
        None => Ok(None),
    }
}

/// The rows that items are, if each is one.
fn rows_of_items(
    alloc: Global,
    scope: Scope<'_>,
    items: &[Item],
) -> Result<Option<Items<Items<u8>>>, AllocError>
    ensures { IfOk result (λ rows. rows ≡ spec.rows_of_items (lent scope.entry) items.now) }
{
    let mut rows = Vec::new(alloc);
    for item in items {
        let symbols = row_of(alloc, scope, item)?;
        match symbols {
            Some(row) => rows.push(row)?,
            None => return Ok(None),
        }
    }
    Ok(Some(Items::from_vec(rows)))
}

/// The table of a value, if it is a list of lists of symbols, which are seen from a scope. It takes time and memory in proportion to
/// them.
pub fn table_of(alloc: Global, scope: Scope<'_>, value: &Expr) -> Result<Option<Table>, AllocError>
    ensures { IfOk result (λ table. table ≡ spec.rows_of (lent scope.entry) value.now) }
{
    match listed_items(value) {
        Some(items) => match rows_of_items(alloc, scope, items)? {
            Some(rows) => Ok(Some(Table { rows })),
            None => Ok(None),
        },
        None => Ok(None),
    }
}
