//! What names name of ports and signals.

ghost use Rattle.std.specs.Prelude.{◌≡◌};
ghost use Rattle.std.specs.Option.{option_map};
ghost use Rattle.vital_structure.specs.Shapes as spec;
ghost use Rattle.vital_nodes.specs.Bounds.{bounds_of_range, shown};

use vital_base::Name;
use vital_declarations::literal_index;
use vital_nodes::{Choice, Item, LiteralBounds, Range, Suffix, literal_integer};

/// What stands behind the identifier of a port or a signal.
#[derive(Clone, Copy)]
pub enum Part<'a> {
    /// Nothing: it is named as a whole.
    Whole,
    /// One literal index.
    Element(&'a Name),
    /// One slice with literal bounds.
    Slice(LiteralBounds<'a>),
}

/// The bounds of a range that are literal.
fn bounds_of_range(range: &Range) -> Option<LiteralBounds<'_>>
    ensures { option_map shown result ≡ bounds_of_range range.now }
{
    let left = literal_integer(&range.left)?;
    let right = literal_integer(&range.right)?;
    Some(LiteralBounds {
        left,
        direction: range.direction,
        right,
    })
}

/// The literal bounds of the one range in parentheses that is all that stands behind an identifier.
fn literal_slice(suffixes: &[Suffix]) -> Option<LiteralBounds<'_>>
    ensures { option_map shown result ≡ spec.literal_slice suffixes.now }
{
    match suffixes {
        [Suffix::Items(items)] => match items.as_slice() {
            [Item::Positional(Choice::Range(range))] => bounds_of_range(range.get()),
            _ => None,
        },
        _ => None,
    }
}

/// The slice that stands behind an identifier.
fn slice_behind(suffixes: &[Suffix]) -> Option<Part<'_>>
    ensures { option_map spec.lent_part result ≡ spec.slice_behind suffixes.now }
{
    match literal_slice(suffixes) {
        Some(slice) => Some(Part::Slice(slice)),
        None => None,
    }
}

/// The part that stands behind an identifier, if it is one.
pub fn part_behind(suffixes: &[Suffix]) -> Option<Part<'_>>
    ensures { option_map spec.lent_part result ≡ spec.part_behind suffixes.now }
{
    if suffixes.is_empty() {
        return Some(Part::Whole);
    }
    match literal_index(suffixes) {
        Some(index) => Some(Part::Element(index)),
        None => slice_behind(suffixes),
    }
}
