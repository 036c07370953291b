//! Items and their parts.

ghost use Rattle.std.specs.Prelude.{◌≡◌};
ghost use Rattle.std.specs.Option.{option_copied};
ghost use Rattle.vital_nodes.specs.Items as spec;

use crate::expr::{Actual, Choice, Expr, Item};

/// The value of an item by position.
pub fn positional_value(item: &Item) -> Option<&Expr>
    ensures { option_copied result ≡ spec.positional_value item.now }
{
    match item {
        Item::Positional(Choice::Value(value)) => Some(value),
        _ => None,
    }
}

/// The items of a list in parentheses.
pub fn listed_items(value: &Expr) -> Option<&[Item]>
    ensures { option_copied result ≡ spec.listed_items value.now }
{
    match value {
        Expr::Parenthesized(_, items) => Some(items.as_slice()),
        _ => None,
    }
}

/// The formal or the choice before `=>`. There is none before `others`.
pub fn formal(item: &Item) -> Option<&Choice>
    ensures { option_copied result ≡ spec.formal item.now }
{
    match item {
        Item::Named(association) => Some(&association.get().formal),
        _ => None,
    }
}

/// The actual or the value of an item. There is none where it is `open` or a range.
pub fn actual(item: &Item) -> Option<&Expr>
    ensures { option_copied result ≡ spec.actual item.now }
{
    match item {
        Item::Others(_, value) => Some(value.get()),
        Item::Positional(Choice::Value(value)) => Some(value),
        Item::Named(association) => match &association.get().actual {
            Actual::Value(value) => Some(value),
            Actual::Open(_) => None,
        },
        _ => None,
    }
}
