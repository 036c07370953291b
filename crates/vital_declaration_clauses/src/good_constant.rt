//! The constants of Level 1.

ghost use Rattle.std.specs.Prelude.{◌≡◌};
ghost use Rattle.std.specs.List.{list_all};
ghost use Rattle.vital_declaration_clauses.specs.GoodConstants as spec;
ghost use Rattle.vital_declaration_clauses.specs.Scopes.{lent};
ghost use Rattle.vital_declarations.specs.Numbers.{range_of};
ghost use Rattle.vital_declarations.specs.Types as types;
ghost use Rattle.vital_names.specs.Meanings as meanings;
ghost use Rattle.vital_nodes.specs.Bounds.{shown};

use crate::scope::Scope;
use vital_declarations::{DeclaredType, character, columns_of, has_length, row_items, type_of};
use vital_names::{Declared, LibraryNames, Meaning, TypeName};
use vital_nodes::{
    Expr, Item, LiteralBounds, Object, identifier_of, is_constant, listed_items, positional_value,
};

/// Whether an object is a constant of VitalTableSymbolType.
pub fn is_symbol(library: &LibraryNames<'_>, object: &Object) -> bool
    ensures { result ≡ spec.is_symbol object.now }
{
    is_constant(object)
        && matches!(
            type_of(library, &object.parts.get().subtype),
            DeclaredType::Plain(TypeName::TableSymbol)
        )
}

/// Whether a meaning is a constant of VitalTableSymbolType, of the cell or of a package.
fn is_symbol_meant(library: &LibraryNames<'_>, meaning: Meaning<'_>) -> bool
    ensures { result ≡ spec.is_symbol_meant (meanings.lent meaning.entry) }
{
    match meaning {
        Meaning::Declared(Declared::Object(object)) => is_symbol(library, object),
        Meaning::Constant(constant) => is_symbol(library, constant.object),
        _ => false,
    }
}

/// Whether an expression is the name of such a constant.
fn names_symbol(scope: Scope<'_>, value: &Expr) -> bool
    ensures { result ≡ spec.names_symbol (lent scope.entry) value.now }
{
    match identifier_of(value) {
        Some(identifier) => match scope.meaning(identifier.name.as_slice()) {
            Some(meaning) => is_symbol_meant(scope.library(), meaning),
            None => false,
        },
        None => false,
    }
}

/// Whether an item of a row of a table is a character literal or the name of a symbol.
fn is_symbol_item(scope: Scope<'_>, item: &Item) -> bool
    ensures { result ≡ spec.is_symbol_item (lent scope.entry) item.now }
{
    match positional_value(item) {
        Some(value) => character(value).is_some() || names_symbol(scope, value),
        None => false,
    }
}

/// Whether items are symbols.
fn are_symbols(scope: Scope<'_>, items: &[Item]) -> bool
    ensures { result ≡ list_all (spec.is_symbol_item (lent scope.entry)) items.now }
{
    items.iter().all(|item| is_symbol_item(scope, item))
}

/// Whether an item is a row of so many symbols.
fn is_row(scope: Scope<'_>, columns: usize, row: &Item) -> bool
    ensures { result ≡ spec.is_row (lent scope.entry) columns row.now }
{
    match row_items(row) {
        Some(items) => items.len() == columns && are_symbols(scope, items),
        None => false,
    }
}

/// Whether items are rows of symbols, all as long as the first.
fn are_rows(scope: Scope<'_>, rows: &[Item]) -> bool
    ensures { result ≡ spec.are_rows (lent scope.entry) rows.now }
{
    let columns = columns_of(rows);
    rows.iter().all(|row| is_row(scope, columns, row))
}

/// Whether a value is a list of rows of one length.
fn is_table(scope: Scope<'_>, value: &Expr) -> bool
    ensures { result ≡ spec.is_table (lent scope.entry) value.now }
{
    match listed_items(value) {
        Some(rows) => are_rows(scope, rows),
        None => false,
    }
}

/// Whether rows and columns are as many as ranges are long.
fn fits(rows: LiteralBounds<'_>, columns: LiteralBounds<'_>, items: &[Item]) -> bool
    ensures { result ≡ spec.fits (range_of (shown rows.entry)) (range_of (shown columns.entry)) items.now }
{
    has_length(rows, items.len()) && has_length(columns, columns_of(items))
}

/// Whether a value is a list of rows of one length, as many and as long as ranges are.
fn is_sized_table(
    scope: Scope<'_>,
    rows: LiteralBounds<'_>,
    columns: LiteralBounds<'_>,
    value: &Expr,
) -> bool
    ensures { result ≡ spec.is_sized_table (lent scope.entry) (range_of (shown rows.entry)) (range_of (shown columns.entry)) value.now }
{
    match listed_items(value) {
        Some(items) => are_rows(scope, items) && fits(rows, columns, items),
        None => false,
    }
}

/// Whether a constant of a plain type may have a value.
fn is_good_plain(scope: Scope<'_>, type_name: TypeName, value: &Expr) -> bool
    ensures { result ≡ spec.is_good_plain (lent scope.entry) type_name value.now }
{
    match type_name {
        TypeName::StdUlogic
        | TypeName::StdLogic
        | TypeName::Boolean
        | TypeName::Time
        | TypeName::Delay(_) => true,
        TypeName::TableSymbol => character(value).is_some(),
        TypeName::TruthTable | TypeName::StateTable => is_table(scope, value),
        _ => false,
    }
}

/// Whether a constant of a type may have a value.
fn is_good_value(scope: Scope<'_>, declared_type: DeclaredType<'_>, value: &Expr) -> bool
    ensures { result ≡ spec.is_good_value (lent scope.entry) (types.lent declared_type.entry) value.now }
{
    match declared_type {
        DeclaredType::Plain(type_name) => is_good_plain(scope, type_name, value),
        DeclaredType::Table(_, rows, columns) => { is_sized_table(scope, rows, columns, value) }
        DeclaredType::Vector(_) | DeclaredType::Other => false,
    }
}

/// Whether a constant is as Level 1 allows it: its type is one that constants may have, and it has a value, which goes with the type
/// where that is one of symbols or of tables. Its names are seen from the scope. Each row of a table is gone over once.
pub fn is_good_constant(scope: Scope<'_>, constant: &Object) -> bool
    ensures { result ≡ spec.is_good_constant (lent scope.entry) constant.now }
{
    let parts = constant.parts.get();
    match &parts.value {
        Some(value) => is_good_value(scope, type_of(scope.library(), &parts.subtype), value),
        None => false,
    }
}
