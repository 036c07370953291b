//! What ports and signals are: one bit, or a vector.

ghost use Rattle.std.specs.Prelude.{◌≡◌, ◌==◌, is_some, nat_le};
ghost use Rattle.std.specs.Option.{option_and_then};
ghost use Rattle.vital_declarations.specs.Numbers.{in_word, length_of, number, offset_of, range_of};
ghost use Rattle.vital_declarations.specs.Types as types;
ghost use Rattle.vital_structure.specs.Shapes as spec;
ghost use Rattle.vital_nodes.specs.Bounds.{shown};

use crate::part::Part;
use vital_base::Name;
use vital_declarations::{DeclaredType, length, offset, type_of};
use vital_names::LibraryNames;
use vital_nodes::{Direction, Iface, LiteralBounds};

/// What a port, a signal or a part of one is.
#[derive(Clone, Copy)]
pub enum Shape<'a> {
    /// One bit.
    Scalar,
    /// A vector with literal bounds.
    Vector(LiteralBounds<'a>),
}

/// What a type makes of a port.
fn shape_in(declared: DeclaredType<'_>) -> Shape<'_>
    ensures { spec.lent result ≡ spec.shape_in (types.lent declared.entry) }
{
    match declared {
        DeclaredType::Vector(bounds) => Shape::Vector(bounds),
        _ => Shape::Scalar,
    }
}

/// What a port of any entity is for an instance of it: a vector where its type is STD_LOGIC_VECTOR with one pair of literal bounds,
/// and else one bit.
pub fn shape_of_port<'a>(library: &LibraryNames<'_>, port: &'a Iface) -> Shape<'a>
    ensures { spec.lent result ≡ spec.shape_of_port port.now }
{
    shape_in(type_of(library, &port.parts.get().subtype))
}

/// Whether there is no number in a range.
pub fn is_null(bounds: LiteralBounds<'_>) -> bool
    ensures { result ≡ (length_of (range_of (shown bounds.entry)) == 0) }
{
    length(bounds) == Some(0)
}

/// Whether a literal writes at least the number of another one, however long they are.
fn is_at_least(upper: &Name, lower: &Name) -> bool
    ensures { result ≡ nat_le (number lower.now) (number upper.now) }
{
    !is_null(LiteralBounds {
        left: lower,
        direction: Direction::To,
        right: upper,
    })
}

/// Whether a number is in a range.
fn has_number(bounds: LiteralBounds<'_>, index: &Name) -> bool
    ensures { result ≡ is_some (offset_of (range_of (shown bounds.entry)) (number index.now)) }
{
    match bounds.direction {
        Direction::To => is_at_least(index, bounds.left) && is_at_least(bounds.right, index),
        Direction::Downto => is_at_least(bounds.left, index) && is_at_least(index, bounds.right),
    }
}

impl<'a> Shape<'a> {
    /// How many bits it has, if a word holds that many. A null range has none.
    pub fn length(self) -> Option<usize>
        ensures { result ≡ in_word (spec.bits_of (spec.lent self.entry)) }
    {
        match self {
            Shape::Scalar => Some(1),
            Shape::Vector(bounds) => length(bounds),
        }
    }

    /// Whether an index is in its range.
    fn has_index(self, index: &Name) -> bool
        ensures { result ≡ is_some (spec.offset_in (spec.lent self.entry) (number index.now)) }
    {
        match self {
            Shape::Scalar => false,
            Shape::Vector(bounds) => has_number(bounds, index),
        }
    }

    /// Whether it is a vector of a direction.
    fn runs(self, direction: Direction) -> bool
        ensures { result ≡ spec.runs (spec.lent self.entry) direction }
    {
        match self {
            Shape::Scalar => false,
            Shape::Vector(bounds) => bounds.direction == direction,
        }
    }

    /// Whether a slice is in its range: with its direction, and with both bounds in it.
    fn has_slice(self, slice: LiteralBounds<'_>) -> bool
        ensures { result ≡ spec.has_slice (spec.lent self.entry) (range_of (shown slice.entry)) }
    {
        self.runs(slice.direction) && self.has_index(slice.left) && self.has_index(slice.right)
    }

    /// Whether a part is in its range.
    pub fn has_part(self, part: Part<'_>) -> bool
        ensures { result ≡ spec.has_part (spec.lent self.entry) (spec.lent_part part.entry) }
    {
        match part {
            Part::Whole => true,
            Part::Element(index) => self.has_index(index),
            Part::Slice(slice) => self.has_slice(slice),
        }
    }

    /// What a part of it is.
    pub fn part(self, part: Part<'a>) -> Shape<'a>
        ensures { spec.lent result ≡ spec.shape_of_part (spec.lent self.entry) (spec.lent_part part.entry) }
    {
        match part {
            Part::Whole => self,
            Part::Element(_) => Shape::Scalar,
            Part::Slice(slice) => Shape::Vector(slice),
        }
    }

    /// How far an index is from the left, if it is in the range and a word holds the distance.
    fn offset(self, index: &Name) -> Option<usize>
        ensures { result ≡ option_and_then in_word (spec.offset_in (spec.lent self.entry) (number index.now)) }
    {
        match self {
            Shape::Scalar => None,
            Shape::Vector(bounds) => offset(bounds, index),
        }
    }

    /// How far the first bit of a part is from the left, if the part begins in the range and a word holds the distance.
    pub fn first(self, part: Part<'_>) -> Option<usize>
        ensures { result ≡ option_and_then in_word (spec.first_of (spec.lent self.entry) (spec.lent_part part.entry)) }
    {
        match part {
            Part::Whole => Some(0),
            Part::Element(index) => self.offset(index),
            Part::Slice(slice) => self.offset(slice.left),
        }
    }
}
