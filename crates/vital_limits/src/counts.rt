//! How many rows, columns and paths there are as the text stands.

ghost use Rattle.std.specs.Prelude.{◌≡◌, length};
ghost use Rattle.std.specs.Option.{option_copied};
ghost use Rattle.vital_limits.specs.Counts as spec;

use vital_nodes::{Expr, Item, actual, listed_items};

/// The items of a value in parentheses.
pub fn listed(value: &Expr) -> &[Item]
    ensures { result.now ≡ spec.listed value.now }
{
    match listed_items(value) {
        Some(items) => items,
        None => &[],
    }
}

/// The items of the value of an item.
pub fn listed_in(item: &Item) -> &[Item]
    ensures { result.now ≡ spec.listed_in item.now }
{
    match actual(item) {
        Some(value) => listed(value),
        None => &[],
    }
}

/// How many items the longest of rows has.
pub fn longest(rows: &[Item]) -> usize
    ensures { result ≡ spec.longest rows.now }
{
    let mut longest = 0;
    for row in rows {
        longest = longest.max(listed_in(row).len());
    }
    longest
}
