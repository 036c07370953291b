//! What the values of constants are made of.

ghost use Rattle.std.specs.Prelude.{◌≡◌};
ghost use Rattle.std.specs.Option.{option_copied};
ghost use Rattle.vital_declarations.specs.Constants as spec;

use vital_nodes::{Expr, Item, listed_items, positional_value};

/// The byte of a character literal.
pub fn character(value: &Expr) -> Option<u8>
    ensures { result ≡ spec.character value.now }
{
    match value {
        Expr::Character(_, byte) => Some(*byte),
        _ => None,
    }
}

/// The items of a row.
pub fn row_items(row: &Item) -> Option<&[Item]>
    ensures { option_copied result ≡ spec.row_items row.now }
{
    listed_items(positional_value(row)?)
}

/// How many items the first row has.
pub fn columns_of(rows: &[Item]) -> usize
    ensures { result ≡ spec.columns_of rows.now }
{
    match rows.first() {
        Some(row) => match row_items(row) {
            Some(items) => items.len(),
            None => 0,
        },
        None => 0,
    }
}
