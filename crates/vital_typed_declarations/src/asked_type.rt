//! The types that are asked of values and defaults.

ghost use Rattle.std.specs.Prelude.{◌≡◌};
ghost use Rattle.std.specs.Option.{option_map};
ghost use Rattle.vital_declarations.specs.Numbers.{range_of};
ghost use Rattle.vital_declarations.specs.Operands as operands;
ghost use Rattle.vital_declarations.specs.Types as types;
ghost use Rattle.vital_typed_declarations.specs.Asked as spec;
ghost use Rattle.vital_nodes.specs.Bounds.{shown};

use vital_declarations::{DeclaredType, VariableType, is_level, length, type_of, variable_type};
use vital_names::{LibraryNames, TypeName};
use vital_nodes::{Iface, LiteralBounds, Object, ObjectClass};
use vital_timing::DelayType;

/// The type that is asked of a value or a default.
#[derive(Clone, Copy, PartialEq, Eq)]
pub enum AskedType {
    Level,
    /// A vector of so many levels.
    Vector(usize),
    Boolean,
    /// The default of a generic of type BOOLEAN, which may be a constant of a package.
    BooleanDefault,
    Time,
    Delay(DelayType),
    Text,
    /// None: what the value is made of is told by another clause, or only the names in it are judged.
    Nothing,
}

/// The type that is asked of a constant of a plain type.
fn of_plain_constant(type_name: TypeName) -> AskedType
    ensures { result ≡ spec.of_plain_constant type_name }
{
    match type_name {
        TypeName::StdUlogic | TypeName::StdLogic => AskedType::Level,
        TypeName::Boolean => AskedType::Boolean,
        TypeName::Time => AskedType::Time,
        TypeName::Delay(delay_type) => AskedType::Delay(delay_type),
        _ => AskedType::Nothing,
    }
}

/// The type that is asked of a constant.
fn of_constant(declared: DeclaredType<'_>) -> AskedType
    ensures { result ≡ spec.of_constant (types.lent declared.entry) }
{
    match declared {
        DeclaredType::Plain(type_name) => of_plain_constant(type_name),
        _ => AskedType::Nothing,
    }
}

/// The type that is asked of a port or a signal.
fn of_signal(declared: DeclaredType<'_>) -> AskedType
    ensures { result ≡ spec.of_signal (types.lent declared.entry) }
{
    if is_level(declared) {
        AskedType::Level
    } else {
        AskedType::Nothing
    }
}

/// No vector variable has more elements.
const MOST_ELEMENTS: usize = 256;

/// The type that is asked of a vector variable.
fn of_vector(bounds: LiteralBounds<'_>) -> AskedType
    ensures { result ≡ spec.of_range (range_of (shown bounds.entry)) }
{
    match length(bounds) {
        Some(length) if length <= MOST_ELEMENTS => AskedType::Vector(length),
        _ => AskedType::Nothing,
    }
}

/// The type that is asked of a variable.
fn of_variable(variable: Option<VariableType<'_>>) -> AskedType
    ensures { result ≡ spec.of_variable (option_map operands.lent_type variable.entry) }
{
    match variable {
        Some(VariableType::Level | VariableType::X01) => AskedType::Level,
        Some(VariableType::Vector(bounds)) => of_vector(bounds),
        _ => AskedType::Nothing,
    }
}

/// The type that is asked of the value of an object.
pub fn asked_of_object(library: &LibraryNames<'_>, object: &Object) -> AskedType
    ensures { result ≡ spec.of_object object.now }
{
    let subtype = &object.parts.get().subtype;
    match object.class {
        ObjectClass::Constant => of_constant(type_of(library, subtype)),
        ObjectClass::Signal => of_signal(type_of(library, subtype)),
        ObjectClass::Variable => of_variable(variable_type(library, subtype)),
    }
}

/// The type that is asked of the default of a port.
pub fn asked_of_port(library: &LibraryNames<'_>, port: &Iface) -> AskedType
    ensures { result ≡ spec.of_port port.now }
{
    of_signal(type_of(library, &port.parts.get().subtype))
}

/// The type that is asked of the default of a generic of a plain type.
fn of_plain_generic(type_name: TypeName) -> AskedType
    ensures { result ≡ spec.of_plain_generic type_name }
{
    match type_name {
        TypeName::StdUlogic | TypeName::StdLogic | TypeName::X01 => AskedType::Level,
        TypeName::Boolean => AskedType::BooleanDefault,
        TypeName::Time => AskedType::Time,
        TypeName::Delay(delay_type) => AskedType::Delay(delay_type),
        TypeName::Text => AskedType::Text,
        _ => AskedType::Nothing,
    }
}

/// The type that is asked of the default of a generic.
pub fn asked_of_generic(library: &LibraryNames<'_>, generic: &Iface) -> AskedType
    ensures { result ≡ spec.of_generic generic.now }
{
    match type_of(library, &generic.parts.get().subtype) {
        DeclaredType::Plain(type_name) => of_plain_generic(type_name),
        _ => AskedType::Nothing,
    }
}
