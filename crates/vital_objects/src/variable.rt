//! The variables of processes.

ghost use Rattle.std.specs.Prelude.{◌≡◌, ◌++◌, map, reverse, if◌then◌else◌, IfOk, OnOk};
ghost use Rattle.std.specs.List.{filter_map};
ghost use Rattle.std.specs.Option.{option_and_then, option_copied, option_to_list};
ghost use Rattle.vital_objects.specs.Together.{beside_lasts, is_last_declaration};
ghost use Rattle.vital_objects.specs.Variables as spec;
ghost use Rattle.vital_declarations.specs.Operands.{lent_type};
ghost use Rattle.vital_names.specs.Sites as sites;
ghost use Rattle.vital_typed_declarations.specs.Asked.{of_object};
ghost use Rattle.vital_typed_declarations.specs.Declarations.{in_value, lent_sited, object_value};

use crate::cell_reader::{CellReader, name_of};
use crate::port::level_in;
use crate::together::first_owner;
use sqlite_items::Items;
use std::alloc::{AllocError, Global};
use vital_base::Name;
use vital_declarations::{VariableType, variable_type};
use vital_names::{CellUnit, DeclaredTogether, ProcessNames, Site};
use vital_nodes::{Decl, Object, ObjectClass, Shared};
use vital_operands::{LevelExpr, VectorExpr};
use vital_typed_declarations::{
    AskedType, SitedDeclaration, TypedValue, asked_of_object, read_value_if_given,
    sited_declarations,
};

/// What a variable keeps, and its default if it has one, in which nothing is named but constants.
#[derive(Drop)]
pub enum VariableKind {
    /// A level. Without a default it begins as 'U'.
    Level(Option<LevelExpr>),
    /// A level of X01: whatever it is given is kept as To_X01 of it. Without a default it begins as 'X'.
    X01(Option<LevelExpr>),
    /// So many levels, and a default that is as long. Without one they begin as 'U'.
    Vector(usize, Option<VectorExpr>),
    /// What a path delay knows of glitches.
    GlitchData,
    /// What a check of two signals knows.
    TimingData,
    /// What a check of one signal knows.
    PeriodData,
}

/// A variable of a process.
#[derive(Drop)]
pub struct Variable {
    pub name: Name,
    /// Variables that are declared together share it.
    pub kind: Shared<VariableKind>,
}

/// The vector that a default is.
fn vector_in(default: Option<TypedValue>) -> Option<VectorExpr>
    ensures { result ≡ option_and_then spec.vector_in default }
{
    match default {
        Some(value) => match value {
            TypedValue::Vector(vector) => Some(vector),
            _ => None,
        },
        None => None,
    }
}

/// How long a vector is that is asked.
fn length_asked(asked: AskedType) -> usize
    ensures { result ≡ spec.length_asked asked }
{
    match asked {
        AskedType::Vector(length) => length,
        _ => 0,
    }
}

/// A kind of variables that keeps no default. A default that is given to one is let go.
fn without_default(kind: VariableKind, default: Option<TypedValue>) -> VariableKind
    ensures { result ≡ kind }
{
    drop(default);
    kind
}

/// What a variable of a type is, of whose default this is asked, with its default.
fn kind_of(
    variable: VariableType<'_>,
    asked: AskedType,
    default: Option<TypedValue>,
) -> VariableKind
    ensures { result ≡ spec.kind_of (lent_type variable.entry) asked default }
{
    match variable {
        VariableType::Level => VariableKind::Level(level_in(default)),
        VariableType::X01 => VariableKind::X01(level_in(default)),
        VariableType::Vector(_) => VariableKind::Vector(length_asked(asked), vector_in(default)),
        VariableType::GlitchData => without_default(VariableKind::GlitchData, default),
        VariableType::TimingData => without_default(VariableKind::TimingData, default),
        VariableType::PeriodData => without_default(VariableKind::PeriodData, default),
    }
}

/// The default of a variable, of which this type is asked.
fn default_of<'a>(
    reader: &CellReader<'a>,
    site: Site<'a>,
    asked: AskedType,
    object: &Object,
) -> Result<Option<TypedValue>, AllocError>
    requires { asked ≡ of_object object.now }
    ensures { IfOk result (λ value. value ≡ (object_value (in_value reader.now.names.now reader.now.faults.now (sites.lent site.entry)) object.now).tree) }
{
    let mut broken = Vec::new(reader.alloc);
    let value = &object.parts.get().value;
    read_value_if_given(&reader.in_value(site), asked, value, &mut broken)
}

/// What a variable keeps, whose default is seen from a site.
fn variable_kind<'a>(
    reader: &CellReader<'a>,
    site: Site<'a>,
    object: &Object,
) -> Result<Option<VariableKind>, AllocError>
    ensures { IfOk result (λ kind. kind ≡ spec.variable_kind reader.now.names.now reader.now.faults.now (sites.lent site.entry) object.now) }
{
    let library = reader.names.library();
    match variable_type(library, &object.parts.get().subtype) {
        Some(variable) => {
            let asked = asked_of_object(library, object);
            let default = default_of(reader, site, asked, object)?;
            Ok(Some(kind_of(variable, asked, default)))
        }
        None => Ok(None),
    }
}

/// The variable that a declaration declares, as an object.
fn as_variable(declaration: &Decl) -> Option<&Object>
    ensures { option_copied result ≡ spec.as_variable declaration.now }
{
    match declaration {
        Decl::Object(object) => match object.class {
            ObjectClass::Variable => Some(object),
            ObjectClass::Constant | ObjectClass::Signal => None,
        },
        _ => None,
    }
}

/// What the variables keep that are declared together, the last of which a declaration declares.
fn kind_behind<'a>(
    reader: &CellReader<'a>,
    declaration: &SitedDeclaration<'a, Decl>,
) -> Result<Option<Shared<VariableKind>>, AllocError>
    ensures { IfOk result (λ kind. kind ≡ spec.kind_behind reader.now.names.now reader.now.faults.now (lent_sited declaration.now)) }
{
    match as_variable(declaration.declaration) {
        Some(object) => first_owner(
            reader.alloc,
            variable_kind(reader, declaration.site, object)?,
        ),
        None => Ok(None),
    }
}

/// What the variables keep that are declared together with this one. It is read behind the last of them; for one before the last it is
/// that behind the next one.
fn kind_from<'a>(
    reader: &CellReader<'a>,
    declaration: &SitedDeclaration<'a, Decl>,
    next: Option<Shared<VariableKind>>,
) -> Result<Option<Shared<VariableKind>>, AllocError>
    ensures { IfOk result (λ kind. kind ≡ (if is_last_declaration (lent_sited declaration.now) then spec.kind_behind reader.now.names.now reader.now.faults.now (lent_sited declaration.now) else next)) }
{
    if declaration.declaration.is_last() {
        kind_behind(reader, declaration)
    } else {
        Ok(next)
    }
}

/// Puts the variable of a kind that a declaration declares at the end, if it declares one.
fn put_variable(
    alloc: Global,
    declaration: &Decl,
    kind: &Option<Shared<VariableKind>>,
    variables: &mut Vec<Variable>,
) -> Result<(), AllocError>
    ensures { OnOk result (variables.new.items ≡ variables.old.items ++ option_to_list (spec.variable_of declaration.now kind.now)) }
{
    let Some(object) = as_variable(declaration) else {
        return Ok(());
    };
    if let Some(kind) = kind {
        variables.push(Variable {
            name: name_of(alloc, &object.identifier)?,
            kind: kind.share()?,
        })?;
    }
    Ok(())
}

/// The variables among declarations at their sites, from the last to the first.
fn variables_backwards<'a>(
    reader: &CellReader<'a>,
    declarations: &[SitedDeclaration<'a, Decl>],
) -> Result<Vec<Variable>, AllocError>
    ensures { IfOk result (λ variables. variables.items ≡ reverse (filter_map (spec.variable reader.now.names.now reader.now.faults.now) (beside_lasts is_last_declaration (map lent_sited declarations.now)))) }
{
    let mut variables = Vec::new(reader.alloc);
    let mut kind = None;
    for declaration in declarations.iter().rev() {
        kind = kind_from(reader, declaration, kind)?;
        put_variable(reader.alloc, declaration.declaration, &kind, &mut variables)?;
    }
    Ok(variables)
}

/// The variables of a process, in order. It takes time in proportion to its declarations.
pub fn read_variables<'a>(
    reader: &CellReader<'a>,
    process: &'a ProcessNames<'a>,
) -> Result<Items<Variable>, AllocError>
    ensures { IfOk result (λ variables. variables ≡ spec.variables reader.now.names.now reader.now.faults.now process.now) }
{
    let declarations = process.process().declarations.as_slice();
    let unit = CellUnit::Architecture;
    let sited = sited_declarations(reader.alloc, unit, Some(process), declarations)?;
    let mut variables = variables_backwards(reader, &sited)?;
    variables.reverse();
    Ok(Items::from_vec(variables))
}
