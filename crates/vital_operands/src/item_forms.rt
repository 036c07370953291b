//! The forms of items in parentheses, and literals.

ghost use Rattle.std.specs.Prelude.{◌≡◌, IfOk};
ghost use Rattle.std.specs.Option.{option_copied, option_map};
ghost use Rattle.vital_operands.specs.Items as spec;

use sqlite_items::Items;
use std::alloc::{AllocError, Global};
use vital_base::Time;
use vital_logic::Level;
use vital_nodes::{Expr, Item, Physical, positional_value};
use vital_timing::UnitOfTime;

/// The value of an item by position that is the only item.
pub fn only_value(items: &[Item]) -> Option<&Expr>
    ensures { option_copied result ≡ spec.only_value items.now }
{
    match items {
        [item] => positional_value(item),
        _ => None,
    }
}

/// The value of `others` that is the only item.
pub fn value_of_others(items: &[Item]) -> Option<&Expr>
    ensures { option_copied result ≡ spec.value_of_others items.now }
{
    match items {
        [Item::Others(_, value)] => Some(value.get()),
        _ => None,
    }
}

/// The values of items, if each is a value by position.
pub fn values<'a>(alloc: Global, items: &'a [Item]) -> Result<Option<Vec<&'a Expr>>, AllocError>
    ensures { IfOk result (λ values. option_map (λ v. spec.all_lent v.items) values ≡ spec.values items.now) }
{
    let mut values = Vec::new(alloc);
    for item in items {
        match positional_value(item) {
            Some(value) => values.push(value)?,
            None => return Ok(None),
        }
    }
    Ok(Some(values))
}

/// The level of a character as it is printed: letters are capital.
pub fn printed_level(byte: u8) -> Option<Level>
    ensures { result ≡ spec.printed_level byte }
{
    match byte {
        b'U' => Some(Level::U),
        b'X' => Some(Level::X),
        b'0' => Some(Level::Zero),
        b'1' => Some(Level::One),
        b'Z' => Some(Level::Z),
        b'W' => Some(Level::W),
        b'L' => Some(Level::L),
        b'H' => Some(Level::H),
        b'-' => Some(Level::Dash),
        _ => None,
    }
}

/// What stands between the quotation marks of a string literal.
fn between_marks(text: &[u8]) -> &[u8]
    ensures { result.now ≡ spec.between_marks text.now }
{
    if text.len() < 2 {
        &[]
    } else {
        &text[1..text.len() - 1]
    }
}

/// The levels between the quotation marks of a string literal, if each byte there is one.
pub fn levels_of_text(alloc: Global, text: &[u8]) -> Result<Option<Items<Level>>, AllocError>
    ensures { IfOk result (λ levels. levels ≡ spec.levels_of_text text.now) }
{
    let mut levels = Vec::new(alloc);
    for byte in between_marks(text) {
        match printed_level(*byte) {
            Some(level) => levels.push(level)?,
            None => return Ok(None),
        }
    }
    Ok(Some(Items::from_vec(levels)))
}

/// The time of a number with a unit of time, which is read as text, if it is one that a delay may have.
pub fn physical_time(physical: &Physical) -> Option<Time>
    ensures { result ≡ spec.physical_time physical.now }
{
    let unit = UnitOfTime::named(physical.unit.name.as_slice())?;
    unit.literal_time(physical.number.as_slice())
}

/// Whether each of items is a value by position.
pub fn are_positional(items: &[Item]) -> bool
    ensures { result ≡ spec.are_positional items.now }
{
    items.iter().all(|item| positional_value(item).is_some())
}
