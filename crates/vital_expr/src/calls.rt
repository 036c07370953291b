//! Names with one parenthesis behind them: calls of functions, and elements of vector variables.

ghost use Rattle.std.specs.Prelude.{◌≡◌, ◌++◌, IfOk, OnOk};
ghost use Rattle.vital_expr.specs.Names as spec;
ghost use Rattle.vital_expr.specs.Readings.{breach};
ghost use Rattle.vital_expr.specs.Seen.{lent};
ghost use Rattle.vital_expr.specs.Steps as steps;
ghost use Rattle.vital_expr.specs.Alone.{call_if_items};
ghost use Rattle.vital_operands.specs.Calls.{function_named, only_items};

use crate::level_forms::{are_values, conversion_of, element_of, primitive_of};
use crate::levels::{level_in_items, levels_of_items};
use crate::reader::Reader;
use crate::tables::{called, one_result, some_results, table_actual};
use crate::vectors::vector_of_item;
use std::alloc::AllocError;
use vital_base::Place;
use vital_calls::input_count;
use vital_names::Function;
use vital_nodes::{Expr, Item, Reference, Suffix};
use vital_operands::{LevelExpr, TruthTableCall, VectorExpr, table_first};

/// A name with items behind it, of which a level is asked.
#[cycle(levels)]
pub(crate) fn level_of_call(
    reader: &Reader<'_>,
    items: &[Item],
    name: &Reference,
    expr: &Expr,
    broken: &mut Vec<Place>,
) -> Result<Option<LevelExpr>, AllocError>
    ensures tree { IfOk result (λ tree. tree ≡ (spec.level_of_function (breach (lent reader.now) expr.now) (lent reader.now).position name.now items.now (steps.item_readings (lent reader.now) items.now) (function_named (lent reader.now).position name.now.identifier)).tree) }
    ensures places { OnOk result (broken.new.items ≡ broken.old.items ++ (spec.level_of_function (breach (lent reader.now) expr.now) (lent reader.now).position name.now items.now (steps.item_readings (lent reader.now) items.now) (function_named (lent reader.now).position name.now.identifier)).places) }
{
    match reader.position.function_named(&name.identifier) {
        Some(Function::Primitive(primitive)) if are_values(input_count(primitive), items) => {
            let inputs = levels_of_items(reader, items, broken)?;
            Ok(primitive_of(primitive, inputs))
        }
        Some(Function::Primitive(_)) => reader.broken(expr, broken),
        Some(Function::Conversion(conversion)) => {
            let input = level_in_items(reader, items, expr, broken)?;
            conversion_of(reader.alloc, conversion, input)
        }
        Some(Function::TruthTable) => match table_call(reader, items, expr, broken)? {
            Some(called) => one_result(reader, called, expr, broken),
            None => Ok(None),
        },
        None => {
            let element = element_of(reader, name)?;
            reader.or_broken(element, expr, broken)
        }
    }
}

/// A name with items behind it, of which a vector is asked.
#[cycle(levels)]
pub(crate) fn vector_of_call(
    reader: &Reader<'_>,
    items: &[Item],
    name: &Reference,
    asked: Option<usize>,
    expr: &Expr,
    broken: &mut Vec<Place>,
) -> Result<Option<VectorExpr>, AllocError>
    ensures tree { IfOk result (λ tree. tree ≡ (spec.vector_of_function (breach (lent reader.now) expr.now) (lent reader.now).position asked items.now (steps.item_readings (lent reader.now) items.now) (function_named (lent reader.now).position name.now.identifier)).tree) }
    ensures places { OnOk result (broken.new.items ≡ broken.old.items ++ (spec.vector_of_function (breach (lent reader.now) expr.now) (lent reader.now).position asked items.now (steps.item_readings (lent reader.now) items.now) (function_named (lent reader.now).position name.now.identifier)).places) }
{
    match reader.position.function_named(&name.identifier) {
        Some(Function::TruthTable) => match table_call(reader, items, expr, broken)? {
            Some(called) => some_results(reader, called, asked, expr, broken),
            None => Ok(None),
        },
        _ => reader.broken(expr, broken),
    }
}

/// A name with items behind it as a call of VitalTruthTable, and how many results it has.
#[cycle(levels)]
pub(crate) fn call_of_name(
    reader: &Reader<'_>,
    name: &Reference,
    expr: &Expr,
    broken: &mut Vec<Place>,
) -> Result<Option<(TruthTableCall, usize)>, AllocError>
    ensures tree { IfOk result (λ tree. tree ≡ (call_if_items (lent reader.now) (breach (lent reader.now) expr.now) (only_items name.now.suffixes)).tree) }
    ensures places { OnOk result (broken.new.items ≡ broken.old.items ++ (call_if_items (lent reader.now) (breach (lent reader.now) expr.now) (only_items name.now.suffixes)).places) }
{
    match name.suffixes.as_slice() {
        [Suffix::Items(items)] => table_call(reader, items.as_slice(), expr, broken),
        _ => reader.broken(expr, broken),
    }
}

/// A call of VitalTruthTable, and how many results it has.
#[cycle(levels)]
pub(crate) fn table_call(
    reader: &Reader<'_>,
    items: &[Item],
    expr: &Expr,
    broken: &mut Vec<Place>,
) -> Result<Option<(TruthTableCall, usize)>, AllocError>
    ensures tree { IfOk result (λ tree. tree ≡ (spec.truth_table_call (breach (lent reader.now) expr.now) (lent reader.now).position items.now (steps.item_readings (lent reader.now) items.now)).tree) }
    ensures places { OnOk result (broken.new.items ≡ broken.old.items ++ (spec.truth_table_call (breach (lent reader.now) expr.now) (lent reader.now).position items.now (steps.item_readings (lent reader.now) items.now)).places) }
{
    match items {
        [first, second] => match table_first(items) {
            Some(true) => table_and_inputs(reader, second, first, broken),
            Some(false) => table_and_inputs(reader, first, second, broken),
            None => reader.broken(expr, broken),
        },
        _ => reader.broken(expr, broken),
    }
}

/// The call of the inputs and the table in two items.
#[cycle(levels)]
fn table_and_inputs(
    reader: &Reader<'_>,
    inputs: &Item,
    table: &Item,
    broken: &mut Vec<Place>,
) -> Result<Option<(TruthTableCall, usize)>, AllocError>
    ensures tree { IfOk result (λ tree. tree ≡ (spec.table_call (lent reader.now).position table.now (steps.item_reading (lent reader.now) table.now) (steps.item_reading (lent reader.now) inputs.now)).tree) }
    ensures places { OnOk result (broken.new.items ≡ broken.old.items ++ (spec.table_call (lent reader.now).position table.now (steps.item_reading (lent reader.now) table.now) (steps.item_reading (lent reader.now) inputs.now)).places) }
{
    let table = table_actual(reader, table, broken)?;
    let inputs = vector_of_item(reader, inputs, broken)?;
    match (table, inputs) {
        (Some(table), Some(inputs)) => Ok(Some(called(table, inputs))),
        _ => Ok(None),
    }
}
