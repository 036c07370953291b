//! Ranges of numbers from literal bounds.

ghost use Rattle.std.specs.Prelude.{◌≡◌, ◌==◌, ◌-◌, nat_le, None, if◌then◌else◌};
ghost use Rattle.std.specs.Option.{option_and_then};
ghost use Rattle.vital_declarations.specs.Numbers.{in_word, length_of, number, offset_of, range_of};
ghost use Rattle.vital_nodes.specs.Bounds.{shown};

use crate::number::gap;
use vital_base::Name;
use vital_nodes::{Direction, LiteralBounds};

/// How many numbers are in a range, if a word holds that many. A null range has none.
pub fn length(bounds: LiteralBounds<'_>) -> Option<usize>
    ensures { result ≡ in_word (length_of (range_of (shown bounds.entry))) }
{
    let (lower, upper) = match bounds.direction {
        Direction::To => (bounds.left, bounds.right),
        Direction::Downto => (bounds.right, bounds.left),
    };
    match gap(upper.as_slice(), lower.as_slice()) {
        Some(gap) if gap < usize::MAX as u128 => Some(gap as usize + 1),
        Some(_) => None,
        None => Some(0),
    }
}

/// Whether there are so many numbers in a range.
pub fn has_length(bounds: LiteralBounds<'_>, count: usize) -> bool
    ensures { result ≡ (count == length_of (range_of (shown bounds.entry))) }
{
    match length(bounds) {
        Some(length) => count == length,
        None => false,
    }
}

/// The difference of two numbers, if the first is not less and a word holds it.
fn difference(upper: &Name, lower: &Name) -> Option<usize>
    ensures { result ≡ (if nat_le (number lower.now) (number upper.now) then in_word (number upper.now - number lower.now) else None) }
{
    match gap(upper.as_slice(), lower.as_slice()) {
        Some(gap) if gap <= usize::MAX as u128 => Some(gap as usize),
        _ => None,
    }
}

/// Whether a number is at least another one.
fn is_at_least(upper: &Name, lower: &Name) -> bool
    ensures { result ≡ nat_le (number lower.now) (number upper.now) }
{
    gap(upper.as_slice(), lower.as_slice()).is_some()
}

/// How far an index is from the left bound of a range, if it is in the range and a word holds the distance.
pub fn offset(bounds: LiteralBounds<'_>, index: &Name) -> Option<usize>
    ensures { result ≡ option_and_then in_word (offset_of (range_of (shown bounds.entry)) (number index.now)) }
{
    match bounds.direction {
        Direction::To if is_at_least(bounds.right, index) => difference(index, bounds.left),
        Direction::Downto if is_at_least(index, bounds.right) => difference(bounds.left, index),
        _ => None,
    }
}
