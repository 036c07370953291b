//! Items of a port map.

ghost use Rattle.std.specs.Prelude.{◌≡◌};
ghost use Rattle.std.specs.Option.{option_copied};
ghost use Rattle.vital_associations.specs.Items as spec;

use vital_nodes::{Actual as WrittenActual, Choice, Expr, Item, Reference};

/// Whether an item comes by its position: a value, a range or `open`.
fn is_positional(item: &Item) -> bool
    ensures { result ≡ spec.is_positional item.now }
{
    match item {
        Item::Positional(_) | Item::Open(_) => true,
        Item::Named(_) | Item::Others(_, _) => false,
    }
}

/// How many items come by their positions before any other.
pub fn leading(items: &[Item]) -> usize
    ensures { result ≡ spec.leading items.now }
{
    for (position, item) in items.iter().enumerate() {
        if !is_positional(item) {
            return position;
        }
    }
    items.len()
}

/// The name that the formal before `=>` is, if it is one.
pub fn formal_name(item: &Item) -> Option<&Reference>
    ensures { option_copied result ≡ spec.formal_name item.now }
{
    match item {
        Item::Named(association) => match &association.get().formal {
            Choice::Value(Expr::Reference(name)) => Some(name),
            _ => None,
        },
        _ => None,
    }
}

/// Whether `open` is given.
pub fn is_open(item: &Item) -> bool
    ensures { result ≡ spec.is_open item.now }
{
    match item {
        Item::Open(_) => true,
        Item::Named(association) => matches!(association.get().actual, WrittenActual::Open(_)),
        _ => false,
    }
}
