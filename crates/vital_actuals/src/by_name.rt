//! Actuals that are names alone, and places at which what is asked for is broken.

ghost use Rattle.std.specs.Prelude.{◌≡◌, ◌++◌, IfOk, OnOk};
ghost use Rattle.std.specs.Option.{option_and_then};
ghost use Rattle.vital_actuals.specs.Kinds.{name_for as name_for'};
ghost use Rattle.vital_actuals.specs.Literals as literals;
ghost use Rattle.vital_actuals.specs.Targets as targets;
ghost use Rattle.vital_calls.specs.declared.actual_form.ActualForm.TheVariants as form;
ghost use Rattle.vital_expr.specs.Seen as readers;
ghost use Rattle.vital_operands.specs.Faults.{own_breach};
ghost use Rattle.vital_operands.specs.Named as names;
ghost use Rattle.vital_statements.specs.Parentheses as parentheses;
ghost use Rattle.vital_nodes.specs.Names as walk;
ghost use Rattle.vital_nodes.specs.Seen.{seen};

use crate::kind::name_for;
use crate::literal::{mode_named, severity_named};
use crate::target::{Target, whole_target, whole_vector};
use std::alloc::AllocError;
use vital_base::{Name, Place};
use vital_calls::ActualForm;
use vital_expr::Reader;
use vital_names::Severity;
use vital_nodes::{Expr, Node, identifier_of};
use vital_operands::ConstantName;
use vital_statements::bare_identifier;
use vital_timing::GlitchMode;

/// Puts the place of a node that is not of its form at the end, unless a name in it breaks another clause.
pub fn put_fault(
    reader: &Reader<'_>,
    node: Node<'_>,
    place: Place,
    broken: &mut Vec<Place>,
) -> Result<(), AllocError>
    ensures { OnOk result (broken.new.items ≡ broken.old.items ++ own_breach (readers.lent reader.now).faults place (seen node.entry)) }
{
    if !reader.faults.is_in(reader.alloc, node)? {
        broken.push(place)?;
    }
    Ok(())
}

/// The name of an identifier alone that stands for what a form asks.
pub fn named(reader: &Reader<'_>, form: ActualForm, expr: &Expr) -> Result<Option<Name>, AllocError>
    ensures { IfOk result (λ name. name ≡ option_and_then (name_for' (readers.lent reader.now).position form) (walk.identifier_of expr.now)) }
{
    match identifier_of(expr) {
        Some(identifier) => name_for(reader.alloc, &reader.position, form, identifier),
        None => Ok(None),
    }
}

/// The name of the generic of a wire delay, in parentheses or not.
pub fn wire_delay_named(reader: &Reader<'_>, expr: &Expr) -> Result<Option<Name>, AllocError>
    ensures { IfOk result (λ name. name ≡ option_and_then (name_for' (readers.lent reader.now).position form.WireDelay) (parentheses.bare_identifier expr.now)) }
{
    let asked = ActualForm::WireDelay;
    match bare_identifier(expr) {
        Some(identifier) => name_for(reader.alloc, &reader.position, asked, identifier),
        None => Ok(None),
    }
}

/// What a result may be put to, by an identifier alone.
pub fn result_named(reader: &Reader<'_>, expr: &Expr) -> Result<Option<Target>, AllocError>
    ensures { IfOk result (λ target. target ≡ option_and_then (targets.whole_target (readers.lent reader.now).position) (walk.identifier_of expr.now)) }
{
    match identifier_of(expr) {
        Some(identifier) => whole_target(reader.alloc, &reader.position, identifier),
        None => Ok(None),
    }
}

/// The vector variable of an identifier alone.
pub fn vector_named(reader: &Reader<'_>, expr: &Expr) -> Result<Option<Target>, AllocError>
    ensures { IfOk result (λ target. target ≡ option_and_then (targets.whole_vector (readers.lent reader.now).position) (walk.identifier_of expr.now)) }
{
    match identifier_of(expr) {
        Some(identifier) => whole_vector(reader.alloc, &reader.position, identifier),
        None => Ok(None),
    }
}

/// The truth table of an identifier alone, and how many columns it has.
pub fn truth_table_named(
    reader: &Reader<'_>,
    expr: &Expr,
) -> Result<Option<(ConstantName, usize)>, AllocError>
    ensures { IfOk result (λ table. table ≡ option_and_then (names.table_named (readers.lent reader.now).position) (walk.identifier_of expr.now)) }
{
    match identifier_of(expr) {
        Some(identifier) => reader.position.table_named(reader.alloc, identifier),
        None => Ok(None),
    }
}

/// The state table of an identifier alone, and how many columns it has.
pub fn state_table_named(
    reader: &Reader<'_>,
    expr: &Expr,
) -> Result<Option<(ConstantName, usize)>, AllocError>
    ensures { IfOk result (λ table. table ≡ option_and_then (names.state_table_named (readers.lent reader.now).position) (walk.identifier_of expr.now)) }
{
    match identifier_of(expr) {
        Some(identifier) => reader.position.state_table_named(reader.alloc, identifier),
        None => Ok(None),
    }
}

/// The mode of an identifier alone.
pub fn mode_alone(reader: &Reader<'_>, expr: &Expr) -> Option<GlitchMode>
    ensures { result ≡ option_and_then (literals.mode_named (readers.lent reader.now).position) (walk.identifier_of expr.now) }
{
    match identifier_of(expr) {
        Some(identifier) => mode_named(&reader.position, identifier),
        None => None,
    }
}

/// The severity of an identifier alone.
pub fn severity_alone(reader: &Reader<'_>, expr: &Expr) -> Option<Severity>
    ensures { result ≡ option_and_then (literals.severity_named (readers.lent reader.now).position) (walk.identifier_of expr.now) }
{
    match identifier_of(expr) {
        Some(identifier) => severity_named(&reader.position, identifier),
        None => None,
    }
}
