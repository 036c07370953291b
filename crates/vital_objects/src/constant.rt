//! The constants that an architecture or a process declares.

ghost use Rattle.std.specs.Prelude.{◌≡◌, ◌++◌, map, reverse, if◌then◌else◌, IfOk, OnOk};
ghost use Rattle.std.specs.List.{filter_map};
ghost use Rattle.std.specs.Option.{option_copied, option_to_list};
ghost use Rattle.vital_library.specs.Constants.{as_constant as as_constant'};
ghost use Rattle.vital_objects.specs.Constants as spec;
ghost use Rattle.vital_objects.specs.Together.{beside_lasts, is_last_declaration};
ghost use Rattle.vital_names.specs.Sites as sites;
ghost use Rattle.vital_typed_declarations.specs.Declarations.{lent_sited};

use crate::cell_reader::{CellReader, name_of};
use crate::package_value::{is_any_table, rows_in};
use crate::together::first_owner;
use sqlite_items::Items;
use std::alloc::{AllocError, Global};
use vital_base::Name;
use vital_declaration_clauses::Scope;
use vital_names::{CellUnit, DeclaredTogether, ProcessNames, Site};
use vital_nodes::{Decl, Object, ObjectClass, Shared};
use vital_operands::{BooleanExpr, DelayExpr, LevelExpr, TimeExpr};
use vital_tables::Table;
use vital_timing::DelayType;
use vital_typed_declarations::{
    AskedType, SitedDeclaration, TypedValue, asked_of_object, read_value_if_given,
    sited_declarations,
};

/// The value of a constant of a cell. It names constants before it, and generics where it is a time or a delay.
#[derive(Drop)]
pub enum ConstantValue {
    Level(LevelExpr),
    Boolean(BooleanExpr),
    Time(TimeExpr),
    /// A delay of a type.
    Delay(DelayType, DelayExpr),
    /// The symbols of the rows of a table.
    Table(Table),
}

/// A constant of a cell.
#[derive(Drop)]
pub struct Constant {
    pub name: Name,
    /// Constants that are declared together share it.
    pub value: Shared<ConstantValue>,
}

/// The value that a typed value is, where a type is asked.
fn value_in(asked: AskedType, value: TypedValue) -> Option<ConstantValue>
    ensures { result ≡ spec.value_in asked value }
{
    match value {
        TypedValue::Level(level) => Some(ConstantValue::Level(level)),
        TypedValue::Boolean(truth) => Some(ConstantValue::Boolean(truth)),
        TypedValue::Time(time) => Some(ConstantValue::Time(time)),
        TypedValue::Delay(delay) => match asked {
            AskedType::Delay(delay_type) => Some(ConstantValue::Delay(delay_type, delay)),
            _ => None,
        },
        TypedValue::Vector(_)
        | TypedValue::PackageBoolean(_)
        | TypedValue::Text
        | TypedValue::Untyped
        | TypedValue::Missing => None,
    }
}

/// The value of a constant, which is seen from a site.
fn constant_value<'a>(
    reader: &CellReader<'a>,
    site: Site<'a>,
    object: &Object,
) -> Result<Option<ConstantValue>, AllocError>
    ensures { IfOk result (λ value. value ≡ spec.constant_value reader.now.names.now reader.now.faults.now (sites.lent site.entry) object.now) }
{
    let library = reader.names.library();
    if is_any_table(library, object) {
        match rows_in(reader.alloc, Scope::Cell(reader.names, &site), object)? {
            Some(rows) => Ok(Some(ConstantValue::Table(rows))),
            None => Ok(None),
        }
    } else {
        let mut broken = Vec::new(reader.alloc);
        let asked = asked_of_object(library, object);
        let value = &object.parts.get().value;
        match read_value_if_given(&reader.in_value(site), asked, value, &mut broken)? {
            Some(value) => Ok(value_in(asked, value)),
            None => Ok(None),
        }
    }
}

/// The constant that a declaration declares, as an object.
fn as_constant(declaration: &Decl) -> Option<&Object>
    ensures { option_copied result ≡ as_constant' declaration.now }
{
    match declaration {
        Decl::Object(object) => match object.class {
            ObjectClass::Constant => Some(object),
            ObjectClass::Signal | ObjectClass::Variable => None,
        },
        _ => None,
    }
}

/// The value of the constants that are declared together, the last of which a declaration declares.
fn value_behind<'a>(
    reader: &CellReader<'a>,
    declaration: &SitedDeclaration<'a, Decl>,
) -> Result<Option<Shared<ConstantValue>>, AllocError>
    ensures { IfOk result (λ value. value ≡ spec.value_behind reader.now.names.now reader.now.faults.now (lent_sited declaration.now)) }
{
    match as_constant(declaration.declaration) {
        Some(object) => first_owner(
            reader.alloc,
            constant_value(reader, declaration.site, object)?,
        ),
        None => Ok(None),
    }
}

/// The value of the constants that are declared together with this one. It is read behind the last of them; for one before the last it is
/// that behind the next one.
fn value_from<'a>(
    reader: &CellReader<'a>,
    declaration: &SitedDeclaration<'a, Decl>,
    next: Option<Shared<ConstantValue>>,
) -> Result<Option<Shared<ConstantValue>>, AllocError>
    ensures { IfOk result (λ value. value ≡ (if is_last_declaration (lent_sited declaration.now) then spec.value_behind reader.now.names.now reader.now.faults.now (lent_sited declaration.now) else next)) }
{
    if declaration.declaration.is_last() {
        value_behind(reader, declaration)
    } else {
        Ok(next)
    }
}

/// Puts the constant of a value that a declaration declares at the end, if it declares one.
fn put_constant(
    alloc: Global,
    declaration: &Decl,
    value: &Option<Shared<ConstantValue>>,
    constants: &mut Vec<Constant>,
) -> Result<(), AllocError>
    ensures { OnOk result (constants.new.items ≡ constants.old.items ++ option_to_list (spec.constant_of declaration.now value.now)) }
{
    let Some(object) = as_constant(declaration) else {
        return Ok(());
    };
    if let Some(value) = value {
        constants.push(Constant {
            name: name_of(alloc, &object.identifier)?,
            value: value.share()?,
        })?;
    }
    Ok(())
}

/// The constants among declarations at their sites, from the last to the first.
fn constants_backwards<'a>(
    reader: &CellReader<'a>,
    declarations: &[SitedDeclaration<'a, Decl>],
) -> Result<Vec<Constant>, AllocError>
    ensures { IfOk result (λ constants. constants.items ≡ reverse (filter_map (spec.constant reader.now.names.now reader.now.faults.now) (beside_lasts is_last_declaration (map lent_sited declarations.now)))) }
{
    let mut constants = Vec::new(reader.alloc);
    let mut value = None;
    for declaration in declarations.iter().rev() {
        value = value_from(reader, declaration, value)?;
        put_constant(
            reader.alloc,
            declaration.declaration,
            &value,
            &mut constants,
        )?;
    }
    Ok(constants)
}

/// The constants among the declarations of an architecture, or of a process of it, in order. It takes time in proportion to them.
pub fn read_constants<'a>(
    reader: &CellReader<'a>,
    process: Option<&'a ProcessNames<'a>>,
    declarations: &'a [Decl],
) -> Result<Items<Constant>, AllocError>
    ensures { IfOk result (λ constants. constants ≡ spec.constants reader.now.names.now reader.now.faults.now (option_copied process.entry) declarations.now) }
{
    let unit = CellUnit::Architecture;
    let sited = sited_declarations(reader.alloc, unit, process, declarations)?;
    let mut constants = constants_backwards(reader, &sited)?;
    constants.reverse();
    Ok(Items::from_vec(constants))
}
