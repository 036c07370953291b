//! The defaults of generics.

ghost use Rattle.std.specs.Prelude.{◌≡◌};
ghost use Rattle.std.specs.List.{list_all};
ghost use Rattle.vital_level0.specs.Defaults.{is_delay, is_others, is_string, is_time, is_time_item, is_times, time_units};
ghost use Rattle.vital_level0.specs.TypeNames.{is_among};

use vital_nodes::{Choice, Expr, Item};
use vital_timing::DelayType;

/// Whether an expression is a string literal.
pub fn is_string(value: &Expr) -> bool
    ensures { result ≡ is_string value.now }
{
    matches!(value, Expr::StringLiteral(_, _))
}

/// Whether an expression is a delay in the form that goes with its type.
pub fn is_delay(delay_type: DelayType, value: &Expr) -> bool
    ensures { result ≡ is_delay delay_type value.now }
{
    match delay_type {
        DelayType::One => is_time(value),
        DelayType::Two => is_times(2, value),
        DelayType::Six => is_times(6, value),
    }
}

/// Whether an expression is a number and a unit of time.
fn is_time(value: &Expr) -> bool
    ensures { result ≡ is_time value.now }
{
    match value {
        Expr::Physical(physical) => is_time_unit(physical.get().unit.name.as_slice()),
        _ => false,
    }
}

/// Whether a name is a unit of physical type TIME.
fn is_time_unit(name: &[u8]) -> bool
    ensures { result ≡ is_among time_units name.now }
{
    name == b"fs".as_slice()
        || name == b"ps".as_slice()
        || name == b"ns".as_slice()
        || name == b"us".as_slice()
        || name == b"ms".as_slice()
        || name == b"sec".as_slice()
        || name == b"min".as_slice()
        || name == b"hr".as_slice()
}

/// Whether an expression is a list of this many times, or one time for all.
fn is_times(count: usize, value: &Expr) -> bool
    ensures { result ≡ is_times count value.now }
{
    match value {
        Expr::Parenthesized(_, items) => {
            (items.len() == count && are_times(items.as_slice())) || is_others(items.as_slice())
        }
        _ => false,
    }
}

/// Whether items are times by position.
fn are_times(items: &[Item]) -> bool
    ensures { result ≡ list_all is_time_item items.now }
{
    items.iter().all(|item| is_time_item(item))
}

/// Whether an item is a time by position.
fn is_time_item(item: &Item) -> bool
    ensures { result ≡ is_time_item item.now }
{
    match item {
        Item::Positional(Choice::Value(value)) => is_time(value),
        _ => false,
    }
}

/// Whether items are one time for all others.
fn is_others(items: &[Item]) -> bool
    ensures { result ≡ is_others items.now }
{
    match items {
        [Item::Others(_, value)] => is_time(value.get()),
        _ => false,
    }
}
