//! What assignments and results are put to.

ghost use Rattle.std.specs.Prelude.{◌≡◌, ◌++◌, IfOk, OnOk};
ghost use Rattle.vital_actuals.specs.Actuals.{target_of};
ghost use Rattle.vital_actuals.specs.Targets as spec;
ghost use Rattle.vital_declarations.specs.Operands as kinds;
ghost use Rattle.vital_expr.specs.Seen as readers;
ghost use Rattle.vital_operands.specs.Seen.{lent};

use crate::by_name::put_fault;
use crate::kind::{name_of, operand_named};
use std::alloc::{AllocError, Global};
use vital_base::{Name, Place};
use vital_declarations::{AliasTarget, OperandKind, VariableType, literal_index};
use vital_expr::Reader;
use vital_nodes::{HasPlace, Identifier, Node, Reference};
use vital_operands::Position;

/// What an assignment or a result is put to. An alias is what it names.
#[derive(Drop)]
pub enum Target {
    /// A variable of levels or of X01.
    Level(Name),
    /// The element of a vector variable at a number of places behind its left end.
    Element(Name, usize),
    /// A vector variable, and its length.
    Vector(Name, usize),
}

/// What an alias names, if that is a variable of levels or an element of a vector variable.
fn target_of_alias(alloc: Global, alias: AliasTarget<'_>) -> Result<Option<Target>, AllocError>
    ensures { IfOk result (λ target. target ≡ spec.target_of_alias (kinds.lent_target alias.entry)) }
{
    match alias {
        AliasTarget::Variable(object) => {
            Ok(Some(Target::Level(name_of(alloc, &object.identifier)?)))
        }
        AliasTarget::Element(object, offset) => {
            Ok(Some(Target::Element(name_of(alloc, &object.identifier)?, offset)))
        }
        AliasTarget::Constant(_) | AliasTarget::PackageConstant(_) | AliasTarget::Other => Ok(None),
    }
}

/// A vector variable of a name.
pub fn whole_vector(
    alloc: Global,
    position: &Position<'_>,
    identifier: &Identifier,
) -> Result<Option<Target>, AllocError>
    ensures { IfOk result (λ target. target ≡ spec.whole_vector (lent position.now) identifier.now) }
{
    match position.length_named(identifier) {
        Some(length) => Ok(Some(Target::Vector(name_of(alloc, identifier)?, length))),
        None => Ok(None),
    }
}

/// The variable of a name, of a type.
fn target_of_variable(
    alloc: Global,
    position: &Position<'_>,
    identifier: &Identifier,
    variable: VariableType<'_>,
) -> Result<Option<Target>, AllocError>
    ensures { IfOk result (λ target. target ≡ spec.target_of_variable (lent position.now) identifier.now (kinds.lent_type variable.entry)) }
{
    match variable {
        VariableType::Level | VariableType::X01 => {
            Ok(Some(Target::Level(name_of(alloc, identifier)?)))
        }
        VariableType::Vector(_) => whole_vector(alloc, position, identifier),
        VariableType::GlitchData | VariableType::TimingData | VariableType::PeriodData => Ok(None),
    }
}

/// A variable of levels, of X01 or a vector variable, or an alias of one of the former or of an element of the latter.
pub fn whole_target(
    alloc: Global,
    position: &Position<'_>,
    identifier: &Identifier,
) -> Result<Option<Target>, AllocError>
    ensures { IfOk result (λ target. target ≡ spec.whole_target (lent position.now) identifier.now) }
{
    match operand_named(position, identifier) {
        OperandKind::Variable(variable) => {
            target_of_variable(alloc, position, identifier, variable)
        }
        OperandKind::Alias(alias) => target_of_alias(alloc, alias),
        _ => Ok(None),
    }
}

/// The element of a vector variable at an index.
fn element_at(
    alloc: Global,
    position: &Position<'_>,
    identifier: &Identifier,
    index: &Name,
) -> Result<Option<Target>, AllocError>
    ensures { IfOk result (λ target. target ≡ spec.element_at (lent position.now) identifier.now index.now) }
{
    match position.offset_named(identifier, index) {
        Some(offset) => Ok(Some(Target::Element(name_of(alloc, identifier)?, offset))),
        None => Ok(None),
    }
}

/// The element of a vector variable at the literal index in its range that is all that stands behind its name.
fn element_target(
    alloc: Global,
    position: &Position<'_>,
    name: &Reference,
) -> Result<Option<Target>, AllocError>
    ensures { IfOk result (λ target. target ≡ spec.element_target (lent position.now) name.now.identifier name.now.suffixes) }
{
    match literal_index(name.suffixes.as_slice()) {
        Some(index) => element_at(alloc, position, &name.identifier, index),
        None => Ok(None),
    }
}

/// What a name is as the target of an assignment.
fn target_named(
    alloc: Global,
    position: &Position<'_>,
    name: &Reference,
) -> Result<Option<Target>, AllocError>
    ensures { IfOk result (λ target. target ≡ spec.target_named (lent position.now) name.now) }
{
    if name.suffixes.as_slice().is_empty() {
        whole_target(alloc, position, &name.identifier)
    } else {
        element_target(alloc, position, name)
    }
}

/// What a name is as the target of an assignment, or where it is none.
pub fn read_target(
    reader: &Reader<'_>,
    name: &Reference,
    broken: &mut Vec<Place>,
) -> Result<Option<Target>, AllocError>
    ensures tree { IfOk result (λ target. target ≡ (target_of (readers.lent reader.now) name.now).tree) }
    ensures places { OnOk result (broken.new.items ≡ broken.old.items ++ (target_of (readers.lent reader.now) name.now).places) }
{
    let target = target_named(reader.alloc, &reader.position, name)?;
    if target.is_none() {
        put_fault(reader, Node::Name(name), name.place(), broken)?;
    }
    Ok(target)
}
