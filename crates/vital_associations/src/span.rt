//! The bits of parts of ports.

ghost use Rattle.std.specs.Prelude.{◌≡◌, true, nat_le, IfSome};
ghost use Rattle.std.specs.Option.{option_map};
ghost use Rattle.vital_associations.specs.Overlaps.{indices};
ghost use Rattle.vital_associations.specs.Spans as spec;
ghost use Rattle.vital_declarations.specs.Numbers.{range_of};
ghost use Rattle.vital_structure.specs.Shapes as shapes;
ghost use Rattle.vital_nodes.specs.Bounds.{shown};

use crate::bit::Bit;
use crate::bounds::{greatest, least};
use vital_base::Name;
use vital_nodes::LiteralBounds;
use vital_structure::{Part, Shape, is_null};

/// Bits of a port that stand side by side.
#[derive(Clone, Copy)]
pub struct Span<'a> {
    /// The number of the port.
    pub port: usize,
    /// The least and the greatest index if the port is a vector.
    pub least: Option<&'a Name>,
    pub greatest: Option<&'a Name>,
}

/// The range of the indices of a part of a vector.
fn indices<'a>(bounds: LiteralBounds<'a>, part: Part<'a>) -> LiteralBounds<'a>
    ensures { range_of (shown result) ≡ indices (range_of (shown bounds.entry)) (shapes.lent_part part.entry) }
{
    match part {
        Part::Whole => bounds,
        Part::Element(index) => LiteralBounds {
            left: index,
            direction: bounds.direction,
            right: index,
        },
        Part::Slice(slice) => slice,
    }
}

/// The bits of a range of indices of a port, if it is not null.
fn span_of_range<'a>(port: usize, range: LiteralBounds<'a>) -> Option<Span<'a>>
    ensures whole { IfSome result (λ s. nat_le (spec.lent s).least (spec.lent s).greatest ≡ true) }
    ensures span { option_map spec.lent result ≡ spec.span_of_range port (range_of (shown range.entry)) }
{
    if is_null(range) {
        return None;
    }
    Some(Span {
        port,
        least: Some(least(range)),
        greatest: Some(greatest(range)),
    })
}

/// The bits of a part of a port, if there are some.
pub fn span_of<'a>(shape: Shape<'a>, port: usize, part: Part<'a>) -> Option<Span<'a>>
    ensures whole { IfSome result (λ s. nat_le (spec.lent s).least (spec.lent s).greatest ≡ true) }
    ensures span { option_map spec.lent result ≡ spec.span_of (shapes.lent shape.entry) port (shapes.lent_part part.entry) }
{
    match shape {
        Shape::Scalar => Some(Span {
            port,
            least: None,
            greatest: None,
        }),
        Shape::Vector(bounds) => span_of_range(port, indices(bounds, part)),
    }
}

impl<'a> Span<'a> {
    /// Its first bit.
    pub fn first(self) -> Bit<'a>
        ensures { result ≡ record { port = self.entry.port; index = self.entry.least } }
    {
        Bit {
            port: self.port,
            index: self.least,
        }
    }

    /// Its last bit.
    pub fn last(self) -> Bit<'a>
        ensures { result ≡ record { port = self.entry.port; index = self.entry.greatest } }
    {
        Bit {
            port: self.port,
            index: self.greatest,
        }
    }
}
