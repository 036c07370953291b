//! The types of variables.

ghost use Rattle.std.specs.Prelude.{◌≡◌};
ghost use Rattle.std.specs.Option.{option_map};
ghost use Rattle.vital_declarations.specs.Numbers.{range_of};
ghost use Rattle.vital_declarations.specs.Operands as spec;
ghost use Rattle.vital_declarations.specs.Types as types;
ghost use Rattle.vital_nodes.specs.Bounds.{shown};

use crate::declared_type::{DeclaredType, type_of};
use crate::range::length;
use vital_names::{LibraryNames, TypeName};
use vital_nodes::{LiteralBounds, Subtype};

/// A vector variable is at most so long.
const MOST_ELEMENTS: usize = 256;

/// A type that a variable of a process may have.
#[derive(Clone, Copy)]
pub enum VariableType<'a> {
    /// STD_ULOGIC or STD_LOGIC.
    Level,
    /// X01.
    X01,
    /// STD_LOGIC_VECTOR with literal bounds, at most 256 long.
    Vector(LiteralBounds<'a>),
    /// VitalGlitchDataType.
    GlitchData,
    /// VitalTimingDataType.
    TimingData,
    /// VitalPeriodDataType.
    PeriodData,
}

/// The type of a variable without an index and without a range, if it is one that variables may have.
fn plain_variable<'a>(type_name: TypeName) -> Option<VariableType<'a>>
    ensures { option_map spec.lent_type result ≡ spec.plain_variable type_name }
{
    match type_name {
        TypeName::StdUlogic | TypeName::StdLogic => Some(VariableType::Level),
        TypeName::X01 => Some(VariableType::X01),
        TypeName::GlitchData => Some(VariableType::GlitchData),
        TypeName::TimingData => Some(VariableType::TimingData),
        TypeName::PeriodData => Some(VariableType::PeriodData),
        _ => None,
    }
}

/// The type of a vector variable, if it is not too long.
fn vector_variable(bounds: LiteralBounds<'_>) -> Option<VariableType<'_>>
    ensures { option_map spec.lent_type result ≡ spec.variable_type_in (types.Vector (range_of (shown bounds.entry))) }
{
    match length(bounds) {
        Some(length) if length <= MOST_ELEMENTS => Some(VariableType::Vector(bounds)),
        _ => None,
    }
}

/// The type of a variable, if it is one that variables may have.
pub fn variable_type<'a>(
    library: &LibraryNames<'_>,
    subtype: &'a Subtype,
) -> Option<VariableType<'a>>
    ensures { option_map spec.lent_type result ≡ spec.variable_type subtype.now }
{
    match type_of(library, subtype) {
        DeclaredType::Plain(type_name) => plain_variable(type_name),
        DeclaredType::Vector(bounds) => vector_variable(bounds),
        DeclaredType::Table(_, _, _) | DeclaredType::Other => None,
    }
}
