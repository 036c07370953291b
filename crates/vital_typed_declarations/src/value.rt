//! Typed values and defaults.

ghost use Rattle.std.specs.Prelude.{◌≡◌, ◌++◌, IfOk, OnOk};
ghost use Rattle.vital_declarations.specs.Types as types;
ghost use Rattle.vital_expr.specs.Seen.{lent};
ghost use Rattle.vital_operands.specs.Seen as operands;
ghost use Rattle.vital_typed_declarations.specs.Declarations.{generic_value};
ghost use Rattle.vital_typed_declarations.specs.Values as spec;
ghost use Rattle.vital_typed_declarations.specs.declared.asked_type.AskedType.TheVariants as asked_types;

use crate::asked_type::{AskedType, asked_of_generic};
use std::alloc::AllocError;
use vital_base::Place;
use vital_declarations::{DeclaredType, type_of};
use vital_expr::{Reader, boolean, delay, level, text, time, vector};
use vital_level0::{DefaultWord, default_word};
use vital_names::TypeName;
use vital_nodes::{Expr, Iface, identifier_of};
use vital_operands::{
    BooleanExpr, DelayExpr, LevelExpr, Position, Standing, TimeExpr, VectorExpr, even_delay,
};
use vital_timing::DelayType;

/// A value or a default of the type that is asked of it.
#[derive(Drop)]
pub enum TypedValue {
    Level(LevelExpr),
    Vector(VectorExpr),
    Boolean(BooleanExpr),
    /// A constant of type BOOLEAN of a package, by its number among the constants of all packages of the library, from 0.
    PackageBoolean(usize),
    Time(TimeExpr),
    Delay(DelayExpr),
    /// A text, which has no effect.
    Text,
    /// A value of which no type is asked.
    Untyped,
    /// None is written.
    Missing,
}

/// Whether a type is BOOLEAN.
fn is_boolean_type(declared: DeclaredType<'_>) -> bool
    ensures { result ≡ spec.is_boolean_type (types.lent declared.entry) }
{
    matches!(declared, DeclaredType::Plain(TypeName::Boolean))
}

/// The constant of type BOOLEAN of a package that a name stands for, by its number.
fn boolean_constant_in(position: &Position<'_>, standing: Standing<'_>) -> Option<usize>
    ensures { result ≡ spec.boolean_constant_in (operands.lent_standing standing.entry) }
{
    match standing {
        Standing::Constant(constant) => {
            let subtype = &constant.object.parts.get().subtype;
            if is_boolean_type(type_of(position.library(), subtype)) {
                Some(constant.number)
            } else {
                None
            }
        }
        _ => None,
    }
}

/// The constant of type BOOLEAN of a package that an expression names.
fn boolean_constant(position: &Position<'_>, expr: &Expr) -> Option<usize>
    ensures { result ≡ spec.boolean_constant (operands.lent position.now) expr.now }
{
    match identifier_of(expr) {
        Some(identifier) => boolean_constant_in(position, position.standing(identifier)),
        None => None,
    }
}

/// A level.
fn read_level(
    reader: &Reader<'_>,
    expr: &Expr,
    broken: &mut Vec<Place>,
) -> Result<Option<TypedValue>, AllocError>
    ensures tree { IfOk result (λ tree. tree ≡ (spec.value_as (lent reader.now) asked_types.Level expr.now).tree) }
    ensures places { OnOk result (broken.new.items ≡ broken.old.items ++ (spec.value_as (lent reader.now) asked_types.Level expr.now).places) }
{
    match level(reader, expr, broken)? {
        Some(level) => Ok(Some(TypedValue::Level(level))),
        None => Ok(None),
    }
}

/// A vector of so many levels.
fn read_vector(
    reader: &Reader<'_>,
    length: usize,
    expr: &Expr,
    broken: &mut Vec<Place>,
) -> Result<Option<TypedValue>, AllocError>
    ensures tree { IfOk result (λ tree. tree ≡ (spec.value_as (lent reader.now) (asked_types.Vector length) expr.now).tree) }
    ensures places { OnOk result (broken.new.items ≡ broken.old.items ++ (spec.value_as (lent reader.now) (asked_types.Vector length) expr.now).places) }
{
    match vector(reader, expr, Some(length), broken)? {
        Some(vector) => Ok(Some(TypedValue::Vector(vector))),
        None => Ok(None),
    }
}

/// A truth value.
fn read_boolean(
    reader: &Reader<'_>,
    expr: &Expr,
    broken: &mut Vec<Place>,
) -> Result<Option<TypedValue>, AllocError>
    ensures tree { IfOk result (λ tree. tree ≡ (spec.value_as (lent reader.now) asked_types.Boolean expr.now).tree) }
    ensures places { OnOk result (broken.new.items ≡ broken.old.items ++ (spec.value_as (lent reader.now) asked_types.Boolean expr.now).places) }
{
    match boolean(reader, expr, broken)? {
        Some(boolean) => Ok(Some(TypedValue::Boolean(boolean))),
        None => Ok(None),
    }
}

/// The default of a generic of type BOOLEAN.
fn read_boolean_default(
    reader: &Reader<'_>,
    expr: &Expr,
    broken: &mut Vec<Place>,
) -> Result<Option<TypedValue>, AllocError>
    ensures tree { IfOk result (λ tree. tree ≡ (spec.value_as (lent reader.now) asked_types.BooleanDefault expr.now).tree) }
    ensures places { OnOk result (broken.new.items ≡ broken.old.items ++ (spec.value_as (lent reader.now) asked_types.BooleanDefault expr.now).places) }
{
    match boolean_constant(&reader.position, expr) {
        Some(number) => Ok(Some(TypedValue::PackageBoolean(number))),
        None => read_boolean(reader, expr, broken),
    }
}

/// A time.
fn read_time(
    reader: &Reader<'_>,
    expr: &Expr,
    broken: &mut Vec<Place>,
) -> Result<Option<TypedValue>, AllocError>
    ensures tree { IfOk result (λ tree. tree ≡ (spec.value_as (lent reader.now) asked_types.Time expr.now).tree) }
    ensures places { OnOk result (broken.new.items ≡ broken.old.items ++ (spec.value_as (lent reader.now) asked_types.Time expr.now).places) }
{
    match time(reader, expr, broken)? {
        Some(time) => Ok(Some(TypedValue::Time(time))),
        None => Ok(None),
    }
}

/// A delay of a type.
fn read_delay(
    reader: &Reader<'_>,
    delay_type: DelayType,
    expr: &Expr,
    broken: &mut Vec<Place>,
) -> Result<Option<TypedValue>, AllocError>
    ensures tree { IfOk result (λ tree. tree ≡ (spec.value_as (lent reader.now) (asked_types.Delay delay_type) expr.now).tree) }
    ensures places { OnOk result (broken.new.items ≡ broken.old.items ++ (spec.value_as (lent reader.now) (asked_types.Delay delay_type) expr.now).places) }
{
    match delay(reader, delay_type, expr, broken)? {
        Some(delay) => Ok(Some(TypedValue::Delay(delay))),
        None => Ok(None),
    }
}

/// A text.
fn read_text(
    reader: &Reader<'_>,
    expr: &Expr,
    broken: &mut Vec<Place>,
) -> Result<Option<TypedValue>, AllocError>
    ensures tree { IfOk result (λ tree. tree ≡ (spec.value_as (lent reader.now) asked_types.Text expr.now).tree) }
    ensures places { OnOk result (broken.new.items ≡ broken.old.items ++ (spec.value_as (lent reader.now) asked_types.Text expr.now).places) }
{
    match text(reader, expr, broken)? {
        Some(_) => Ok(Some(TypedValue::Text)),
        None => Ok(None),
    }
}

/// A value of the type that is asked, or where it is not of that type.
pub fn read_value(
    reader: &Reader<'_>,
    asked: AskedType,
    expr: &Expr,
    broken: &mut Vec<Place>,
) -> Result<Option<TypedValue>, AllocError>
    ensures tree { IfOk result (λ tree. tree ≡ (spec.value_as (lent reader.now) asked expr.now).tree) }
    ensures places { OnOk result (broken.new.items ≡ broken.old.items ++ (spec.value_as (lent reader.now) asked expr.now).places) }
{
    match asked {
        AskedType::Level => read_level(reader, expr, broken),
        AskedType::Vector(length) => read_vector(reader, length, expr, broken),
        AskedType::Boolean => read_boolean(reader, expr, broken),
        AskedType::BooleanDefault => read_boolean_default(reader, expr, broken),
        AskedType::Time => read_time(reader, expr, broken),
        AskedType::Delay(delay_type) => read_delay(reader, delay_type, expr, broken),
        AskedType::Text => read_text(reader, expr, broken),
        AskedType::Nothing => Ok(Some(TypedValue::Untyped)),
    }
}

/// The same, of a value that may be left out.
pub fn read_value_if_given(
    reader: &Reader<'_>,
    asked: AskedType,
    value: &Option<Expr>,
    broken: &mut Vec<Place>,
) -> Result<Option<TypedValue>, AllocError>
    ensures tree { IfOk result (λ tree. tree ≡ (spec.value_if_given (lent reader.now) asked value.now).tree) }
    ensures places { OnOk result (broken.new.items ≡ broken.old.items ++ (spec.value_if_given (lent reader.now) asked value.now).places) }
{
    match value {
        Some(expr) => read_value(reader, asked, expr, broken),
        None => Ok(Some(TypedValue::Missing)),
    }
}

/// What a word is that Level 0 gives as a default for its type.
fn value_of_word(word: DefaultWord) -> TypedValue
    ensures { result ≡ spec.value_of_word word }
{
    match word {
        DefaultWord::Boolean(truth) => TypedValue::Boolean(BooleanExpr::Literal(truth)),
        DefaultWord::ZeroDelay(delay_type) => {
            TypedValue::Delay(DelayExpr::Literal(even_delay(delay_type, 0)))
        }
    }
}

/// The default of a generic, of its type, or where it is not of that type. A word that Level 0 gives for that type is read by its text.
pub fn read_generic_default(
    reader: &Reader<'_>,
    generic: &Iface,
    broken: &mut Vec<Place>,
) -> Result<Option<TypedValue>, AllocError>
    ensures tree { IfOk result (λ tree. tree ≡ (generic_value (lent reader.now) generic.now).tree) }
    ensures places { OnOk result (broken.new.items ≡ broken.old.items ++ (generic_value (lent reader.now) generic.now).places) }
{
    match default_word(generic) {
        Some(word) => Ok(Some(value_of_word(word))),
        None => {
            let asked = asked_of_generic(reader.position.library(), generic);
            read_value_if_given(reader, asked, &generic.parts.get().default, broken)
        }
    }
}
