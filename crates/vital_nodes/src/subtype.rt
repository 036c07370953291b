//! The bounds of subtypes.

ghost use Rattle.std.specs.Prelude.{◌≡◌};
ghost use Rattle.std.specs.Option.{option_copied, option_map};
ghost use Rattle.vital_nodes.specs.Bounds as spec;

use crate::decl::Subtype;
use crate::expr::{Choice, Direction, Expr, Item, Range, Reference, Suffix};
use vital_base::Name;

/// Two literal bounds and the direction between them.
#[derive(Clone, Copy)]
pub struct LiteralBounds<'a> {
    /// The left bound as it stands: digits and underscores.
    pub left: &'a Name,
    pub direction: Direction,
    /// The right bound as it stands: digits and underscores.
    pub right: &'a Name,
}

/// Whether a number has no point.
fn has_no_point(number: &Name) -> bool
    ensures { result ≡ spec.has_no_point number.now }
{
    number.as_slice().iter().all(|byte| *byte != b'.')
}

/// The number of an expression that is a number without unit, point, sign and parentheses.
pub fn literal_integer(expr: &Expr) -> Option<&Name>
    ensures { option_map (λ n. n.now) result ≡ spec.literal_integer expr.now }
{
    match expr {
        Expr::Number(_, number) if has_no_point(number) => Some(number),
        _ => None,
    }
}

/// The bounds of a range that are literal.
fn bounds_of_range(range: &Range) -> Option<LiteralBounds<'_>>
    ensures { option_map spec.shown result ≡ spec.bounds_of_range range.now }
{
    let left = literal_integer(&range.left)?;
    let right = literal_integer(&range.right)?;
    Some(LiteralBounds {
        left,
        direction: range.direction,
        right,
    })
}

/// The items in the parentheses at the end of a name.
fn items_at_end(name: &Reference) -> Option<&[Item]>
    ensures { option_copied result ≡ spec.items_at_end name.now }
{
    match name.suffixes.as_slice().last() {
        Some(Suffix::Items(items)) => Some(items.as_slice()),
        _ => None,
    }
}

/// The range that an item is, by position.
fn range_of_item(item: &Item) -> Option<&Range>
    ensures { option_copied result ≡ spec.range_of_item item.now }
{
    match item {
        Item::Positional(Choice::Range(range)) => Some(range.get()),
        _ => None,
    }
}

/// The range that is the only item.
fn only_range(items: &[Item]) -> Option<&Range>
    ensures { option_copied result ≡ spec.only_range items.now }
{
    match items {
        [item] => range_of_item(item),
        _ => None,
    }
}

/// The literal bounds of the one range in parentheses at the end of a name.
fn bounds_of_name(name: &Reference) -> Option<LiteralBounds<'_>>
    ensures { option_map spec.shown result ≡ spec.bounds_of_name name.now }
{
    bounds_of_range(only_range(items_at_end(name)?)?)
}

/// The two literal bounds of a subtype: those of one range in parentheses at the end of its name. There are none where it is
/// written with `range`.
pub fn literal_bounds(subtype: &Subtype) -> Option<LiteralBounds<'_>>
    ensures { option_map spec.shown result ≡ spec.literal_bounds subtype.now }
{
    match &subtype.range {
        None => bounds_of_name(&subtype.name),
        Some(_) => None,
    }
}
