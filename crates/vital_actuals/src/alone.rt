//! Actuals that are names or literals alone.

ghost use Rattle.std.specs.Prelude.{◌≡◌, ◌++◌, IfOk, OnOk};
ghost use Rattle.vital_actuals.specs.Actuals as spec;
ghost use Rattle.vital_calls.specs.declared.actual_form.ActualForm.TheVariants as form;
ghost use Rattle.vital_expr.specs.Seen.{lent};

use crate::actual::Actual;
use crate::by_name::{
    mode_alone, named, result_named, severity_alone, state_table_named, truth_table_named,
    vector_named, wire_delay_named,
};
use crate::literal::{edge_symbol, state_count};
use std::alloc::AllocError;
use vital_base::Place;
use vital_calls::ActualForm;
use vital_expr::Reader;
use vital_nodes::Expr;

/// The name of an identifier alone, for the forms that ask for something declared.
pub fn read_name(
    reader: &Reader<'_>,
    form: ActualForm,
    expr: &Expr,
    broken: &mut Vec<Place>,
) -> Result<Option<Actual>, AllocError>
    ensures tree { IfOk result (λ tree. tree ≡ (spec.name_as (lent reader.now) form expr.now).tree) }
    ensures places { OnOk result (broken.new.items ≡ broken.old.items ++ (spec.name_as (lent reader.now) form expr.now).places) }
{
    match named(reader, form, expr)? {
        Some(name) => Ok(Some(Actual::Named(name))),
        None => reader.broken(expr, broken),
    }
}

/// The generic of a wire delay. Alone of all names it may stand in parentheses.
pub fn read_wire_delay(
    reader: &Reader<'_>,
    expr: &Expr,
    broken: &mut Vec<Place>,
) -> Result<Option<Actual>, AllocError>
    ensures tree { IfOk result (λ tree. tree ≡ (spec.actual_as (lent reader.now) form.WireDelay expr.now).tree) }
    ensures places { OnOk result (broken.new.items ≡ broken.old.items ++ (spec.actual_as (lent reader.now) form.WireDelay expr.now).places) }
{
    match wire_delay_named(reader, expr)? {
        Some(name) => Ok(Some(Actual::Named(name))),
        None => reader.broken(expr, broken),
    }
}

/// What a result is put to.
pub fn read_result(
    reader: &Reader<'_>,
    expr: &Expr,
    broken: &mut Vec<Place>,
) -> Result<Option<Actual>, AllocError>
    ensures tree { IfOk result (λ tree. tree ≡ (spec.actual_as (lent reader.now) form.Result expr.now).tree) }
    ensures places { OnOk result (broken.new.items ≡ broken.old.items ++ (spec.actual_as (lent reader.now) form.Result expr.now).places) }
{
    match result_named(reader, expr)? {
        Some(target) => Ok(Some(Actual::Target(target))),
        None => reader.broken(expr, broken),
    }
}

/// The vector variable that keeps the inputs of a state table.
pub fn read_previous_data(
    reader: &Reader<'_>,
    expr: &Expr,
    broken: &mut Vec<Place>,
) -> Result<Option<Actual>, AllocError>
    ensures tree { IfOk result (λ tree. tree ≡ (spec.actual_as (lent reader.now) form.PreviousData expr.now).tree) }
    ensures places { OnOk result (broken.new.items ≡ broken.old.items ++ (spec.actual_as (lent reader.now) form.PreviousData expr.now).places) }
{
    match vector_named(reader, expr)? {
        Some(target) => Ok(Some(Actual::Target(target))),
        None => reader.broken(expr, broken),
    }
}

/// A truth table.
pub fn read_truth_table(
    reader: &Reader<'_>,
    expr: &Expr,
    broken: &mut Vec<Place>,
) -> Result<Option<Actual>, AllocError>
    ensures tree { IfOk result (λ tree. tree ≡ (spec.actual_as (lent reader.now) form.TruthTable expr.now).tree) }
    ensures places { OnOk result (broken.new.items ≡ broken.old.items ++ (spec.actual_as (lent reader.now) form.TruthTable expr.now).places) }
{
    match truth_table_named(reader, expr)? {
        Some((table, columns)) => Ok(Some(Actual::Table(table, columns))),
        None => reader.broken(expr, broken),
    }
}

/// A state table.
pub fn read_state_table(
    reader: &Reader<'_>,
    expr: &Expr,
    broken: &mut Vec<Place>,
) -> Result<Option<Actual>, AllocError>
    ensures tree { IfOk result (λ tree. tree ≡ (spec.actual_as (lent reader.now) form.StateTable expr.now).tree) }
    ensures places { OnOk result (broken.new.items ≡ broken.old.items ++ (spec.actual_as (lent reader.now) form.StateTable expr.now).places) }
{
    match state_table_named(reader, expr)? {
        Some((table, columns)) => Ok(Some(Actual::Table(table, columns))),
        None => reader.broken(expr, broken),
    }
}

/// A literal number of states.
pub fn read_state_count(
    reader: &Reader<'_>,
    expr: &Expr,
    broken: &mut Vec<Place>,
) -> Result<Option<Actual>, AllocError>
    ensures tree { IfOk result (λ tree. tree ≡ (spec.actual_as (lent reader.now) form.StateCount expr.now).tree) }
    ensures places { OnOk result (broken.new.items ≡ broken.old.items ++ (spec.actual_as (lent reader.now) form.StateCount expr.now).places) }
{
    match state_count(expr) {
        Some(count) => Ok(Some(Actual::StateCount(count))),
        None => reader.broken(expr, broken),
    }
}

/// A mode.
pub fn read_mode(
    reader: &Reader<'_>,
    expr: &Expr,
    broken: &mut Vec<Place>,
) -> Result<Option<Actual>, AllocError>
    ensures tree { IfOk result (λ tree. tree ≡ (spec.actual_as (lent reader.now) form.Mode expr.now).tree) }
    ensures places { OnOk result (broken.new.items ≡ broken.old.items ++ (spec.actual_as (lent reader.now) form.Mode expr.now).places) }
{
    match mode_alone(reader, expr) {
        Some(mode) => Ok(Some(Actual::Mode(mode))),
        None => reader.broken(expr, broken),
    }
}

/// A severity.
pub fn read_severity(
    reader: &Reader<'_>,
    expr: &Expr,
    broken: &mut Vec<Place>,
) -> Result<Option<Actual>, AllocError>
    ensures tree { IfOk result (λ tree. tree ≡ (spec.actual_as (lent reader.now) form.Severity expr.now).tree) }
    ensures places { OnOk result (broken.new.items ≡ broken.old.items ++ (spec.actual_as (lent reader.now) form.Severity expr.now).places) }
{
    match severity_alone(reader, expr) {
        Some(severity) => Ok(Some(Actual::Severity(severity))),
        None => reader.broken(expr, broken),
    }
}

/// A character literal that stands for a set of changes.
pub fn read_edge_symbol(
    reader: &Reader<'_>,
    expr: &Expr,
    broken: &mut Vec<Place>,
) -> Result<Option<Actual>, AllocError>
    ensures tree { IfOk result (λ tree. tree ≡ (spec.actual_as (lent reader.now) form.EdgeSymbol expr.now).tree) }
    ensures places { OnOk result (broken.new.items ≡ broken.old.items ++ (spec.actual_as (lent reader.now) form.EdgeSymbol expr.now).places) }
{
    match edge_symbol(expr) {
        Some(symbol) => Ok(Some(Actual::EdgeSymbol(symbol))),
        None => reader.broken(expr, broken),
    }
}
