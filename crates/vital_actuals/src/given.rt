//! What actuals are where a form is asked of them.

ghost use Rattle.std.specs.Prelude.{◌≡◌, ◌++◌, IfOk, OnOk};
ghost use Rattle.vital_actuals.specs.Actuals as spec;
ghost use Rattle.vital_calls.specs.declared.actual_form.ActualForm.TheVariants as form;
ghost use Rattle.vital_expr.specs.Outcomes.{and_then, map_typed};
ghost use Rattle.vital_expr.specs.Readings as readings;
ghost use Rattle.vital_expr.specs.Seen.{lent};

use crate::actual::Actual;
use crate::alone::{
    read_edge_symbol, read_mode, read_name, read_previous_data, read_result, read_severity,
    read_state_count, read_state_table, read_truth_table, read_wire_delay,
};
use crate::by_name::put_fault;
use crate::path::paths;
use std::alloc::AllocError;
use vital_base::Place;
use vital_calls::ActualForm;
use vital_expr::{Reader, boolean, delay, level, text, time, vector};
use vital_nodes::{Actual as GivenActual, Expr, HasPlace, Item, Node, actual};
use vital_operands::{BooleanExpr, TimeExpr};
use vital_timing::DelayType;

// ---- expressions

/// The inputs of a table.
fn read_inputs(
    reader: &Reader<'_>,
    expr: &Expr,
    broken: &mut Vec<Place>,
) -> Result<Option<Actual>, AllocError>
    ensures tree { IfOk result (λ tree. tree ≡ (spec.actual_as (lent reader.now) form.Inputs expr.now).tree) }
    ensures places { OnOk result (broken.new.items ≡ broken.old.items ++ (spec.actual_as (lent reader.now) form.Inputs expr.now).places) }
{
    match vector(reader, expr, None, broken)? {
        Some(inputs) => Ok(Some(Actual::Inputs(inputs))),
        None => Ok(None),
    }
}

/// A level.
fn read_level(
    reader: &Reader<'_>,
    expr: &Expr,
    broken: &mut Vec<Place>,
) -> Result<Option<Actual>, AllocError>
    ensures tree { IfOk result (λ tree. tree ≡ (spec.actual_as (lent reader.now) form.Level expr.now).tree) }
    ensures places { OnOk result (broken.new.items ≡ broken.old.items ++ (spec.actual_as (lent reader.now) form.Level expr.now).places) }
{
    match level(reader, expr, broken)? {
        Some(level) => Ok(Some(Actual::Level(level))),
        None => Ok(None),
    }
}

/// A delay of a type.
fn read_delay(
    reader: &Reader<'_>,
    asked: DelayType,
    expr: &Expr,
    broken: &mut Vec<Place>,
) -> Result<Option<Actual>, AllocError>
    ensures tree { IfOk result (λ tree. tree ≡ (spec.actual_as (lent reader.now) (form.Delay asked) expr.now).tree) }
    ensures places { OnOk result (broken.new.items ≡ broken.old.items ++ (spec.actual_as (lent reader.now) (form.Delay asked) expr.now).places) }
{
    match delay(reader, asked, expr, broken)? {
        Some(delay) => Ok(Some(Actual::Delay(delay))),
        None => Ok(None),
    }
}

/// A time.
fn read_time(
    reader: &Reader<'_>,
    expr: &Expr,
    broken: &mut Vec<Place>,
) -> Result<Option<Actual>, AllocError>
    ensures tree { IfOk result (λ tree. tree ≡ (spec.actual_as (lent reader.now) form.Time expr.now).tree) }
    ensures places { OnOk result (broken.new.items ≡ broken.old.items ++ (spec.actual_as (lent reader.now) form.Time expr.now).places) }
{
    match time(reader, expr, broken)? {
        Some(time) => Ok(Some(Actual::Time(time))),
        None => Ok(None),
    }
}

/// A truth value.
fn read_boolean(
    reader: &Reader<'_>,
    expr: &Expr,
    broken: &mut Vec<Place>,
) -> Result<Option<Actual>, AllocError>
    ensures tree { IfOk result (λ tree. tree ≡ (spec.actual_as (lent reader.now) form.Boolean expr.now).tree) }
    ensures places { OnOk result (broken.new.items ≡ broken.old.items ++ (spec.actual_as (lent reader.now) form.Boolean expr.now).places) }
{
    match boolean(reader, expr, broken)? {
        Some(boolean) => Ok(Some(Actual::Boolean(boolean))),
        None => Ok(None),
    }
}

/// A text.
fn read_text(
    reader: &Reader<'_>,
    expr: &Expr,
    broken: &mut Vec<Place>,
) -> Result<Option<Actual>, AllocError>
    ensures tree { IfOk result (λ tree. tree ≡ (spec.actual_as (lent reader.now) form.Text expr.now).tree) }
    ensures places { OnOk result (broken.new.items ≡ broken.old.items ++ (spec.actual_as (lent reader.now) form.Text expr.now).places) }
{
    match text(reader, expr, broken)? {
        Some(_) => Ok(Some(Actual::Text)),
        None => Ok(None),
    }
}

/// A list of paths whose delays are of a type.
fn read_paths(
    reader: &Reader<'_>,
    asked: DelayType,
    expr: &Expr,
    broken: &mut Vec<Place>,
) -> Result<Option<Actual>, AllocError>
    ensures tree { IfOk result (λ tree. tree ≡ (spec.actual_as (lent reader.now) (form.Paths asked) expr.now).tree) }
    ensures places { OnOk result (broken.new.items ≡ broken.old.items ++ (spec.actual_as (lent reader.now) (form.Paths asked) expr.now).places) }
{
    match paths(reader, asked, expr, broken)? {
        Some(paths) => Ok(Some(Actual::Paths(paths))),
        None => Ok(None),
    }
}

// ---- literals that alone are allowed

/// Whether a truth value is the literal itself.
fn is_literal(boolean: &BooleanExpr, literal: bool) -> bool
    ensures { result ≡ spec.is_literal literal boolean.now }
{
    match boolean {
        BooleanExpr::Literal(value) => *value == literal,
        _ => false,
    }
}

/// A truth value that is the literal itself.
fn read_only_boolean(
    reader: &Reader<'_>,
    literal: bool,
    expr: &Expr,
    broken: &mut Vec<Place>,
) -> Result<Option<Actual>, AllocError>
    ensures tree { IfOk result (λ tree. tree ≡ (and_then (spec.only_boolean literal (lent reader.now) expr.now) (readings.boolean_of (lent reader.now) expr.now)).tree) }
    ensures places { OnOk result (broken.new.items ≡ broken.old.items ++ (and_then (spec.only_boolean literal (lent reader.now) expr.now) (readings.boolean_of (lent reader.now) expr.now)).places) }
{
    match boolean(reader, expr, broken)? {
        Some(value) => {
            let is_allowed = is_literal(&value, literal);
            drop(value);
            if is_allowed {
                Ok(Some(Actual::Fixed))
            } else {
                reader.broken(expr, broken)
            }
        }
        None => Ok(None),
    }
}

/// Whether a time is the literal 0.
fn is_zero(time: &TimeExpr) -> bool
    ensures { result ≡ spec.is_zero time.now }
{
    match time {
        TimeExpr::Literal(time) => *time == 0,
        _ => false,
    }
}

/// A time that is the literal 0.
fn read_only_zero(
    reader: &Reader<'_>,
    expr: &Expr,
    broken: &mut Vec<Place>,
) -> Result<Option<Actual>, AllocError>
    ensures tree { IfOk result (λ tree. tree ≡ (spec.actual_as (lent reader.now) form.OnlyZero expr.now).tree) }
    ensures places { OnOk result (broken.new.items ≡ broken.old.items ++ (spec.actual_as (lent reader.now) form.OnlyZero expr.now).places) }
{
    match time(reader, expr, broken)? {
        Some(value) => {
            if is_zero(&value) {
                Ok(Some(Actual::Fixed))
            } else {
                reader.broken(expr, broken)
            }
        }
        None => Ok(None),
    }
}

// ---- actuals

/// What an expression is as an actual of a form, or where it is not of that form.
fn actual_as(
    reader: &Reader<'_>,
    form: ActualForm,
    expr: &Expr,
    broken: &mut Vec<Place>,
) -> Result<Option<Actual>, AllocError>
    ensures tree { IfOk result (λ tree. tree ≡ (spec.actual_as (lent reader.now) form expr.now).tree) }
    ensures places { OnOk result (broken.new.items ≡ broken.old.items ++ (spec.actual_as (lent reader.now) form expr.now).places) }
{
    match form {
        ActualForm::Result => read_result(reader, expr, broken),
        ActualForm::PreviousData => read_previous_data(reader, expr, broken),
        ActualForm::TruthTable => read_truth_table(reader, expr, broken),
        ActualForm::StateTable => read_state_table(reader, expr, broken),
        ActualForm::Inputs => read_inputs(reader, expr, broken),
        ActualForm::StateCount => read_state_count(reader, expr, broken),
        ActualForm::Level => read_level(reader, expr, broken),
        ActualForm::Delay(asked) => read_delay(reader, asked, expr, broken),
        ActualForm::Time => read_time(reader, expr, broken),
        ActualForm::Boolean => read_boolean(reader, expr, broken),
        ActualForm::Text => read_text(reader, expr, broken),
        ActualForm::Mode => read_mode(reader, expr, broken),
        ActualForm::Severity => read_severity(reader, expr, broken),
        ActualForm::OnlyFalse => read_only_boolean(reader, false, expr, broken),
        ActualForm::OnlyTrue => read_only_boolean(reader, true, expr, broken),
        ActualForm::OnlyZero => read_only_zero(reader, expr, broken),
        ActualForm::EdgeSymbol => read_edge_symbol(reader, expr, broken),
        ActualForm::WireDelay => read_wire_delay(reader, expr, broken),
        ActualForm::Paths(asked) => read_paths(reader, asked, expr, broken),
        _ => read_name(reader, form, expr, broken),
    }
}

/// Where what an item gives stands.
pub fn place_given(item: &Item) -> Place
    ensures { result ≡ spec.place_given item.now }
{
    match item {
        Item::Named(association) => match &association.get().actual {
            GivenActual::Value(value) => value.place(),
            GivenActual::Open(place) => *place,
        },
        _ => item.place(),
    }
}

/// What an item gives as an actual of a form, or where it gives none of that form.
pub fn read_actual(
    reader: &Reader<'_>,
    form: ActualForm,
    item: &Item,
    broken: &mut Vec<Place>,
) -> Result<Option<Actual>, AllocError>
    ensures tree { IfOk result (λ tree. tree ≡ (spec.actual_of (lent reader.now) form item.now).tree) }
    ensures places { OnOk result (broken.new.items ≡ broken.old.items ++ (spec.actual_of (lent reader.now) form item.now).places) }
{
    match actual(item) {
        Some(value) => actual_as(reader, form, value, broken),
        None => {
            put_fault(reader, Node::Item(item), place_given(item), broken)?;
            Ok(None)
        }
    }
}
