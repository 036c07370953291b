//! Whether an actual fits a formal.

ghost use Rattle.std.specs.Prelude.{◌≡◌};
ghost use Rattle.vital_associations.specs.Misfits as spec;
ghost use Rattle.vital_structure.specs.Shapes.{lent};

use crate::bounds::have_one_length;
use vital_nodes::Mode;
use vital_structure::Shape;

/// Why an association is a fault.
#[derive(Clone, Copy, PartialEq, Eq)]
pub enum Misfit {
    /// The formal is no port's identifier, alone or with one index or one slice in its range.
    UnknownPort,
    /// A bit of the formal was associated before.
    Twice,
    /// The actual is neither `open`, nor a level, nor a port or signal, alone or with one index or one slice in its range.
    UnknownSignal,
    /// One bit is associated with a vector.
    Type,
    /// Two vectors have different lengths.
    Width,
    /// An out, inout or buffer port is associated with a literal or with an in port.
    Mode,
}

/// Why a shape may not be associated with another one.
pub fn misfit_of_shapes(formal: Shape<'_>, actual: Shape<'_>) -> Option<Misfit>
    ensures { result ≡ spec.misfit_of_shapes (lent formal.entry) (lent actual.entry) }
{
    match (formal, actual) {
        (Shape::Scalar, Shape::Scalar) => None,
        (Shape::Vector(formal), Shape::Vector(actual)) if have_one_length(formal, actual) => None,
        (Shape::Vector(_), Shape::Vector(_)) => Some(Misfit::Width),
        (Shape::Scalar, Shape::Vector(_)) | (Shape::Vector(_), Shape::Scalar) => Some(Misfit::Type),
    }
}

/// Whether a port of a mode drives what it is associated with.
pub fn drives(mode: Option<Mode>) -> bool
    ensures { result ≡ spec.drives mode }
{
    matches!(mode, Some(Mode::Out | Mode::Inout | Mode::Buffer))
}
