//! Expressions that give vectors of levels.

ghost use Rattle.std.specs.Prelude.{◌≡◌, ◌++◌, None, IfOk, OnOk};
ghost use Rattle.vital_expr.specs.Readings.{breach, reading, vector_of};
ghost use Rattle.vital_expr.specs.Seen.{lent};
ghost use Rattle.vital_expr.specs.Steps as steps;
ghost use Rattle.vital_expr.specs.Vectors as spec;
ghost use Rattle.vital_expr.specs.Alone as alone;

use crate::calls::{call_of_name, vector_of_call};
use crate::levels::{level, levels_of_items};
use crate::reader::Reader;
use crate::tables::call_alone;
use crate::vector_forms::{
    list_of_levels, list_of_one, others_of_length, vector_of_text, whole_vector,
};
use std::alloc::AllocError;
use vital_base::Place;
use vital_nodes::{Actual, Choice, Expr, Item, Reference, Suffix};
use vital_operands::{VectorExpr, are_positional};

/// An expression of which a vector is asked, of this length if one is asked.
#[cycle(levels)]
#[tactic(auto, using(crate::proofs::Laws::vector_law))]
pub fn vector(
    reader: &Reader<'_>,
    expr: &Expr,
    asked: Option<usize>,
    broken: &mut Vec<Place>,
) -> Result<Option<VectorExpr>, AllocError>
    ensures tree { IfOk result (λ tree. tree ≡ (vector_of (lent reader.now) asked expr.now).tree) }
    ensures places { OnOk result (broken.new.items ≡ broken.old.items ++ (vector_of (lent reader.now) asked expr.now).places) }
{
    vector_by_form(reader, expr, asked, broken)
}

/// The same, by the form of the expression.
#[cycle(levels)]
fn vector_by_form(
    reader: &Reader<'_>,
    expr: &Expr,
    asked: Option<usize>,
    broken: &mut Vec<Place>,
) -> Result<Option<VectorExpr>, AllocError>
    ensures tree { IfOk result (λ tree. tree ≡ (steps.vector_by_form (lent reader.now) asked expr.now).tree) }
    ensures places { OnOk result (broken.new.items ≡ broken.old.items ++ (steps.vector_by_form (lent reader.now) asked expr.now).places) }
{
    match expr {
        Expr::StringLiteral(_, text) => {
            let vector = vector_of_text(reader.alloc, text.as_slice(), asked)?;
            reader.or_broken(vector, expr, broken)
        }
        Expr::Reference(name) => vector_of_name(reader, name, asked, expr, broken),
        Expr::Parenthesized(_, items) => {
            vector_in_items(reader, items.as_slice(), asked, expr, broken)
        }
        _ => reader.broken(expr, broken),
    }
}

/// The value of an item, of which a vector of any length is asked. Where the item gives no value there is none.
#[cycle(levels)]
pub(crate) fn vector_of_item(
    reader: &Reader<'_>,
    item: &Item,
    broken: &mut Vec<Place>,
) -> Result<Option<VectorExpr>, AllocError>
    ensures tree { IfOk result (λ tree. tree ≡ ((steps.item_reading (lent reader.now) item.now).vector None).tree) }
    ensures places { OnOk result (broken.new.items ≡ broken.old.items ++ ((steps.item_reading (lent reader.now) item.now).vector None).places) }
{
    match item {
        Item::Positional(Choice::Value(value)) => vector(reader, value, None, broken),
        Item::Others(_, value) => vector(reader, value.get(), None, broken),
        Item::Named(association) => match &association.get().actual {
            Actual::Value(value) => vector(reader, value, None, broken),
            Actual::Open(_) => Ok(None),
        },
        _ => Ok(None),
    }
}

/// A name of which a vector is asked.
#[cycle(levels)]
fn vector_of_name(
    reader: &Reader<'_>,
    name: &Reference,
    asked: Option<usize>,
    expr: &Expr,
    broken: &mut Vec<Place>,
) -> Result<Option<VectorExpr>, AllocError>
    ensures tree { IfOk result (λ tree. tree ≡ ((steps.name_reading (breach (lent reader.now) expr.now) (lent reader.now) name.now).vector asked).tree) }
    ensures places { OnOk result (broken.new.items ≡ broken.old.items ++ ((steps.name_reading (breach (lent reader.now) expr.now) (lent reader.now) name.now).vector asked).places) }
{
    match name.suffixes.as_slice() {
        [] => {
            let vector = whole_vector(reader, &name.identifier, asked)?;
            reader.or_broken(vector, expr, broken)
        }
        [Suffix::Items(items)] => {
            vector_of_call(reader, items.as_slice(), name, asked, expr, broken)
        }
        _ => reader.broken(expr, broken),
    }
}

/// Items in parentheses, of which a vector is asked.
#[cycle(levels)]
fn vector_in_items(
    reader: &Reader<'_>,
    items: &[Item],
    asked: Option<usize>,
    expr: &Expr,
    broken: &mut Vec<Place>,
) -> Result<Option<VectorExpr>, AllocError>
    ensures tree { IfOk result (λ tree. tree ≡ (spec.vector_in_items (breach (lent reader.now) expr.now) asked items.now (steps.item_readings (lent reader.now) items.now)).tree) }
    ensures places { OnOk result (broken.new.items ≡ broken.old.items ++ (spec.vector_in_items (breach (lent reader.now) expr.now) asked items.now (steps.item_readings (lent reader.now) items.now)).places) }
{
    match items {
        [] => reader.broken(expr, broken),
        [item] => vector_in_item(reader, item, asked, expr, broken),
        _ => vector_of_several(reader, items, asked, expr, broken),
    }
}

/// The only item in parentheses, of which a vector is asked.
#[cycle(levels)]
fn vector_in_item(
    reader: &Reader<'_>,
    item: &Item,
    asked: Option<usize>,
    expr: &Expr,
    broken: &mut Vec<Place>,
) -> Result<Option<VectorExpr>, AllocError>
    ensures tree { IfOk result (λ tree. tree ≡ (spec.vector_in_item (breach (lent reader.now) expr.now) asked item.now (steps.item_reading (lent reader.now) item.now)).tree) }
    ensures places { OnOk result (broken.new.items ≡ broken.old.items ++ (spec.vector_in_item (breach (lent reader.now) expr.now) asked item.now (steps.item_reading (lent reader.now) item.now)).places) }
{
    match item {
        Item::Positional(Choice::Value(value)) => {
            vector_of_one(reader, value, asked, expr, broken)
        }
        Item::Others(_, value) => match level(reader, value.get(), broken)? {
            Some(level) => others_of_length(reader, level, asked, expr, broken),
            None => Ok(None),
        },
        _ => reader.broken(expr, broken),
    }
}

/// Two items or more in parentheses, of which a vector is asked.
#[cycle(levels)]
fn vector_of_several(
    reader: &Reader<'_>,
    items: &[Item],
    asked: Option<usize>,
    expr: &Expr,
    broken: &mut Vec<Place>,
) -> Result<Option<VectorExpr>, AllocError>
    ensures tree { IfOk result (λ tree. tree ≡ (spec.vector_of_several (breach (lent reader.now) expr.now) asked items.now (steps.item_readings (lent reader.now) items.now)).tree) }
    ensures places { OnOk result (broken.new.items ≡ broken.old.items ++ (spec.vector_of_several (breach (lent reader.now) expr.now) asked items.now (steps.item_readings (lent reader.now) items.now)).places) }
{
    if !are_positional(items) {
        return reader.broken(expr, broken);
    }
    match levels_of_items(reader, items, broken)? {
        Some(levels) => list_of_levels(reader, levels, asked, expr, broken),
        None => Ok(None),
    }
}

/// One value in parentheses, of which a vector is asked: a list of one level, or the vector in it. No node in it is read twice:
/// further parentheses are passed by, and a call of VitalTruthTable is read before it is known whether it gives a level.
#[cycle(levels)]
#[tactic(auto, using(crate::proofs::AloneLaws::one_law))]
fn vector_of_one(
    reader: &Reader<'_>,
    value: &Expr,
    asked: Option<usize>,
    expr: &Expr,
    broken: &mut Vec<Place>,
) -> Result<Option<VectorExpr>, AllocError>
    ensures tree { IfOk result (λ tree. tree ≡ (spec.vector_of_one (breach (lent reader.now) expr.now) asked (reading (lent reader.now) value.now)).tree) }
    ensures places { OnOk result (broken.new.items ≡ broken.old.items ++ (spec.vector_of_one (breach (lent reader.now) expr.now) asked (reading (lent reader.now) value.now)).places) }
{
    one_by_form(reader, value, asked, expr, broken)
}

/// The same, by the form of the value.
#[cycle(levels)]
fn one_by_form(
    reader: &Reader<'_>,
    value: &Expr,
    asked: Option<usize>,
    expr: &Expr,
    broken: &mut Vec<Place>,
) -> Result<Option<VectorExpr>, AllocError>
    ensures tree { IfOk result (λ tree. tree ≡ (alone.one_by_form (lent reader.now) (breach (lent reader.now) expr.now) asked value.now).tree) }
    ensures places { OnOk result (broken.new.items ≡ broken.old.items ++ (alone.one_by_form (lent reader.now) (breach (lent reader.now) expr.now) asked value.now).places) }
{
    match value {
        Expr::Parenthesized(_, items) => match items.as_slice() {
            [Item::Positional(Choice::Value(inner))] => {
                vector_of_one(reader, inner, asked, expr, broken)
            }
            items => vector_in_items(reader, items, asked, value, broken),
        },
        Expr::Reference(name) => match reader.position.table_items(name) {
            Some(_) => {
                let mut found = Vec::new(reader.alloc);
                let called = call_of_name(reader, name, value, &mut found)?;
                call_alone(reader, called, &found, value, asked, expr, broken)
            }
            None => one_by_level(reader, value, asked, expr, broken),
        },
        _ => one_by_level(reader, value, asked, expr, broken),
    }
}

/// A value in parentheses that is read as a level, and where it is none as a vector.
#[cycle(levels)]
fn one_by_level(
    reader: &Reader<'_>,
    value: &Expr,
    asked: Option<usize>,
    expr: &Expr,
    broken: &mut Vec<Place>,
) -> Result<Option<VectorExpr>, AllocError>
    ensures tree { IfOk result (λ tree. tree ≡ (spec.vector_of_one (breach (lent reader.now) expr.now) asked (reading (lent reader.now) value.now)).tree) }
    ensures places { OnOk result (broken.new.items ≡ broken.old.items ++ (spec.vector_of_one (breach (lent reader.now) expr.now) asked (reading (lent reader.now) value.now)).places) }
{
    let mut unused = Vec::new(reader.alloc);
    match level(reader, value, &mut unused)? {
        Some(level) => list_of_one(reader, level, asked, expr, broken),
        None => vector(reader, value, asked, broken),
    }
}
