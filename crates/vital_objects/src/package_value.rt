//! What the constants of packages are worth.

ghost use Rattle.std.specs.Prelude.{◌≡◌, None, Some, if◌then◌else◌, unwrap_or, IfOk};
ghost use Rattle.std.specs.Option.{option_copied};
ghost use Rattle.vital_objects.specs.PackageValues as spec;
ghost use Rattle.vital_declaration_clauses.specs.Scopes as scopes;
ghost use Rattle.vital_typed_declarations.specs.Declarations.{object_value};

use crate::together::{first_owner, next_owner};
use sqlite_items::Items;
use std::alloc::{AllocError, Global};
use vital_base::Time;
use vital_declaration_clauses::Scope;
use vital_declarations::TableType;
use vital_expr::Reader;
use vital_names::LibraryNames;
use vital_nodes::{Object, Shared};
use vital_operands::{
    BooleanExpr, ConstantName, DelayExpr, Faults, LevelExpr, Position, TimeExpr, is_table,
};
use vital_tables::{Table, table_of};
use vital_timing::Delay;
use vital_typed_declarations::{TypedValue, asked_of_object, read_value_if_given};

/// What a constant of a package is worth. It names nothing but constants of packages before it.
#[derive(Drop)]
pub enum PackageValue {
    Level(LevelExpr),
    Boolean(BooleanExpr),
    Time(Time),
    Delay(Delay),
    /// The symbols of the rows of a table.
    Table(Table),
}

/// The value of the constant of a number among those that are known.
fn value_at(known: &[Option<Shared<PackageValue>>], number: usize) -> Option<&PackageValue>
    ensures { option_copied result ≡ spec.value_at known.now number }
{
    match known.get(number) {
        Some(value) => match value {
            Some(value) => Some(value.get()),
            None => None,
        },
        None => None,
    }
}

/// The time that a value is.
fn time_in(value: &PackageValue) -> Option<Time>
    ensures { result ≡ spec.time_in value.now }
{
    match value {
        PackageValue::Time(time) => Some(*time),
        _ => None,
    }
}

/// The delay that a value is.
fn delay_in(value: &PackageValue) -> Option<Delay>
    ensures { result ≡ spec.delay_in value.now }
{
    match value {
        PackageValue::Delay(delay) => Some(*delay),
        _ => None,
    }
}

/// The time that a constant is worth.
fn time_of_constant(known: &[Option<Shared<PackageValue>>], name: &ConstantName) -> Option<Time>
    ensures { result ≡ spec.time_of_constant known.now name.now }
{
    match name {
        ConstantName::Cell(_) => None,
        ConstantName::Package(number) => match value_at(known, *number) {
            Some(value) => time_in(value),
            None => None,
        },
    }
}

/// The delay that a constant is worth.
fn delay_of_constant(known: &[Option<Shared<PackageValue>>], name: &ConstantName) -> Option<Delay>
    ensures { result ≡ spec.delay_of_constant known.now name.now }
{
    match name {
        ConstantName::Cell(_) => None,
        ConstantName::Package(number) => match value_at(known, *number) {
            Some(value) => delay_in(value),
            None => None,
        },
    }
}

/// What a time is worth that names no generic and no constant of a cell.
fn known_time(known: &[Option<Shared<PackageValue>>], expr: &TimeExpr) -> Option<Time>
    ensures { result ≡ spec.known_time known.now expr.now }
{
    match expr {
        TimeExpr::Literal(time) => Some(*time),
        TimeExpr::Generic(_) => None,
        TimeExpr::Constant(name) => time_of_constant(known, name),
    }
}

/// What a delay is worth that names no generic and no constant of a cell.
pub fn known_delay(known: &[Option<Shared<PackageValue>>], expr: &DelayExpr) -> Option<Delay>
    ensures { result ≡ spec.known_delay known.now expr.now }
{
    match expr {
        DelayExpr::Literal(delay) => Some(*delay),
        DelayExpr::Generic(_) => None,
        DelayExpr::Constant(name) => delay_of_constant(known, name),
    }
}

/// What a typed value is worth.
fn known_value(known: &[Option<Shared<PackageValue>>], value: TypedValue) -> Option<PackageValue>
    ensures { result ≡ spec.known_value known.now value }
{
    match value {
        TypedValue::Level(level) => Some(PackageValue::Level(level)),
        TypedValue::Boolean(truth) => Some(PackageValue::Boolean(truth)),
        TypedValue::Time(time) => Some(PackageValue::Time(known_time(known, &time)?)),
        TypedValue::Delay(delay) => Some(PackageValue::Delay(known_delay(known, &delay)?)),
        TypedValue::Vector(_)
        | TypedValue::PackageBoolean(_)
        | TypedValue::Text
        | TypedValue::Untyped
        | TypedValue::Missing => None,
    }
}

/// Whether a constant is a table of either kind.
pub fn is_any_table(library: &LibraryNames<'_>, object: &Object) -> bool
    ensures { result ≡ spec.is_any_table object.now }
{
    is_table(library, TableType::Truth, object) || is_table(library, TableType::State, object)
}

/// The rows of a constant that is a table, whose value is seen from a scope.
pub fn rows_in(
    alloc: Global,
    scope: Scope<'_>,
    object: &Object,
) -> Result<Option<Table>, AllocError>
    ensures { IfOk result (λ rows. rows ≡ spec.rows_in (scopes.lent scope.entry) object.now) }
{
    match &object.parts.get().value {
        Some(value) => table_of(alloc, scope, value),
        None => Ok(None),
    }
}

/// The typed value of a constant that is no table and has a number.
fn typed_value(
    alloc: Global,
    library: &LibraryNames<'_>,
    number: usize,
    object: &Object,
) -> Result<Option<TypedValue>, AllocError>
    ensures { IfOk result (λ value. value ≡ (object_value (spec.at_package library.now number) object.now).tree) }
{
    let faults = Faults::new(alloc, &[])?;
    let reader = Reader {
        alloc,
        position: Position::Package(library, number),
        faults: &faults,
    };
    let mut broken = Vec::new(alloc);
    let asked = asked_of_object(library, object);
    read_value_if_given(&reader, asked, &object.parts.get().value, &mut broken)
}

/// The value of the constant that stands behind those whose values are known.
fn next_value(
    alloc: Global,
    library: &LibraryNames<'_>,
    known: &[Option<Shared<PackageValue>>],
    object: &Object,
) -> Result<Option<PackageValue>, AllocError>
    ensures { IfOk result (λ value. value ≡ spec.next_value library.now known.now object.now) }
{
    let number = known.len();
    if is_any_table(library, object) {
        match rows_in(alloc, Scope::Package(library, number), object)? {
            Some(rows) => Ok(Some(PackageValue::Table(rows))),
            None => Ok(None),
        }
    } else {
        match typed_value(alloc, library, number, object)? {
            Some(value) => Ok(known_value(known, value)),
            None => Ok(None),
        }
    }
}

/// The value of the declaration that has begun, or else of the constant behind those that are known.
fn value_of(
    alloc: Global,
    library: &LibraryNames<'_>,
    known: &[Option<Shared<PackageValue>>],
    begun: Option<Option<Shared<PackageValue>>>,
    object: &Object,
) -> Result<Option<Shared<PackageValue>>, AllocError>
    ensures { IfOk result (λ value. value ≡ unwrap_or begun (spec.next_value library.now known.now object.now)) }
{
    match begun {
        Some(value) => Ok(value),
        None => first_owner(alloc, next_value(alloc, library, known, object)?),
    }
}

/// The value of a declaration, if a constant behind this one is declared together with it.
fn still_begun(
    object: &Object,
    value: &Option<Shared<PackageValue>>,
) -> Result<Option<Option<Shared<PackageValue>>>, AllocError>
    ensures { IfOk result (λ begun. begun ≡ (if object.now.is_last then None else Some value.now)) }
{
    if object.is_last {
        Ok(None)
    } else {
        Ok(Some(next_owner(value)?))
    }
}

/// What the constants of the packages of a library are worth, in their order: nothing where the value is not of its type. Those that are
/// declared together share it.
pub fn package_values(
    alloc: Global,
    library: &LibraryNames<'_>,
) -> Result<Items<Option<Shared<PackageValue>>>, AllocError>
    ensures { IfOk result (λ values. values ≡ spec.package_values library.now) }
{
    let mut known = Vec::new(alloc);
    let mut begun = None;
    for object in library.constants() {
        let value = value_of(alloc, library, &known, begun, object)?;
        begun = still_begun(object, &value)?;
        known.push(value)?;
    }
    Ok(Items::from_vec(known))
}
