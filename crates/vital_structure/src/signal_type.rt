//! The types and defaults that the ports and signals of a netlist unit may have.

ghost use Rattle.std.specs.Prelude.{◌≡◌};
ghost use Rattle.std.specs.Option.{option_map};
ghost use Rattle.vital_declarations.specs.Types as types;
ghost use Rattle.vital_structure.specs.Shapes.{lent};
ghost use Rattle.vital_structure.specs.Signals as spec;

use crate::shape::Shape;
use vital_declarations::{DeclaredType, character};
use vital_logic::Level;
use vital_names::TypeName;
use vital_nodes::{Expr, listed_items};
use vital_operands::{printed_level, value_of_others};

/// A type of levels, or of vectors of levels.
#[derive(Clone, Copy)]
pub struct SignalType<'a> {
    pub shape: Shape<'a>,
    /// Whether each bit is STD_LOGIC, which is resolved, and not STD_ULOGIC (IEEE 1164).
    pub is_resolved: bool,
}

/// A type as one that ports and signals may have.
pub fn signal_type(declared: DeclaredType<'_>) -> Option<SignalType<'_>>
    ensures { option_map spec.lent_type result ≡ spec.signal_type (types.lent declared.entry) }
{
    let (shape, is_resolved) = match declared {
        DeclaredType::Plain(TypeName::StdUlogic) => (Shape::Scalar, false),
        DeclaredType::Plain(TypeName::StdLogic) => (Shape::Scalar, true),
        DeclaredType::Vector(bounds) => (Shape::Vector(bounds), true),
        _ => return None,
    };
    Some(SignalType { shape, is_resolved })
}

/// The level of a character literal.
pub fn level_literal(value: &Expr) -> Option<Level>
    ensures { result ≡ spec.level_literal value.now }
{
    printed_level(character(value)?)
}

/// The level that is given for all elements.
fn level_of_others(value: &Expr) -> Option<Level>
    ensures { result ≡ spec.level_of_others value.now }
{
    level_literal(value_of_others(listed_items(value)?)?)
}

/// The level that a default gives each bit.
fn default_level(shape: Shape<'_>, value: &Expr) -> Option<Level>
    ensures { result ≡ spec.default_level (lent shape.entry) value.now }
{
    match shape {
        Shape::Scalar => level_literal(value),
        Shape::Vector(_) => level_of_others(value),
    }
}

/// The level that a default gives each bit, if there is a default; none where the default is of another form.
pub fn default_in(shape: Shape<'_>, default: &Option<Expr>) -> Option<Option<Level>>
    ensures { result ≡ spec.default_in (lent shape.entry) default.now }
{
    match default {
        None => Some(None),
        Some(value) => match default_level(shape, value) {
            Some(level) => Some(Some(level)),
            None => None,
        },
    }
}
