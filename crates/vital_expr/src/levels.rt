//! Expressions that give levels.

ghost use Rattle.std.specs.Prelude.{◌≡◌, ◌++◌, IfOk, OnOk};
ghost use Rattle.vital_expr.specs.Levels as spec;
ghost use Rattle.vital_expr.specs.Reading.{levels_of};
ghost use Rattle.vital_expr.specs.Readings.{breach, level_of};
ghost use Rattle.vital_expr.specs.Seen.{lent};
ghost use Rattle.vital_expr.specs.Steps as steps;

use crate::calls::level_of_call;
use crate::level_forms::{literal, logical, opposite};
use crate::reader::Reader;
use crate::trees::Trees;
use sqlite_items::Items;
use std::alloc::AllocError;
use vital_base::Place;
use vital_nodes::{Actual, Choice, Expr, Item, Reference, Suffix};
use vital_operands::{LevelExpr, are_positional};

/// An expression of which a level is asked.
#[cycle(levels)]
#[tactic(auto, using(crate::proofs::Laws::level_law))]
pub fn level(
    reader: &Reader<'_>,
    expr: &Expr,
    broken: &mut Vec<Place>,
) -> Result<Option<LevelExpr>, AllocError>
    ensures tree { IfOk result (λ tree. tree ≡ (level_of (lent reader.now) expr.now).tree) }
    ensures places { OnOk result (broken.new.items ≡ broken.old.items ++ (level_of (lent reader.now) expr.now).places) }
{
    level_by_form(reader, expr, broken)
}

/// The same, by the form of the expression.
#[cycle(levels)]
fn level_by_form(
    reader: &Reader<'_>,
    expr: &Expr,
    broken: &mut Vec<Place>,
) -> Result<Option<LevelExpr>, AllocError>
    ensures tree { IfOk result (λ tree. tree ≡ (steps.level_by_form (lent reader.now) expr.now).tree) }
    ensures places { OnOk result (broken.new.items ≡ broken.old.items ++ (steps.level_by_form (lent reader.now) expr.now).places) }
{
    match expr {
        Expr::Logical(_, operator, operands) => {
            let operands = levels(reader, operands.as_slice(), broken)?;
            Ok(logical(*operator, operands))
        }
        Expr::Not(_, operand) => {
            let operand = level(reader, operand.get(), broken)?;
            opposite(reader.alloc, operand)
        }
        Expr::Character(_, byte) => reader.or_broken(literal(*byte), expr, broken),
        Expr::Reference(name) => level_of_name(reader, name, expr, broken),
        Expr::Parenthesized(_, items) => level_in_items(reader, items.as_slice(), expr, broken),
        _ => reader.broken(expr, broken),
    }
}

/// Operands of which levels are asked.
#[cycle(levels)]
fn levels(
    reader: &Reader<'_>,
    operands: &[Expr],
    broken: &mut Vec<Place>,
) -> Result<Option<Items<LevelExpr>>, AllocError>
    ensures tree { IfOk result (λ trees. trees ≡ (levels_of (steps.readings (lent reader.now) operands.now)).tree) }
    ensures places { OnOk result (broken.new.items ≡ broken.old.items ++ (levels_of (steps.readings (lent reader.now) operands.now)).places) }
{
    let mut levels = Trees::new(reader.alloc);
    for operand in operands {
        let level = level(reader, operand, broken)?;
        levels.put(level)?;
    }
    Ok(levels.into_items())
}

/// The value of an item, of which a level is asked. Where the item gives no value there is none.
#[cycle(levels)]
pub(crate) fn level_of_item(
    reader: &Reader<'_>,
    item: &Item,
    broken: &mut Vec<Place>,
) -> Result<Option<LevelExpr>, AllocError>
    ensures tree { IfOk result (λ tree. tree ≡ (steps.item_reading (lent reader.now) item.now).level.tree) }
    ensures places { OnOk result (broken.new.items ≡ broken.old.items ++ (steps.item_reading (lent reader.now) item.now).level.places) }
{
    match item {
        Item::Positional(Choice::Value(value)) => level(reader, value, broken),
        Item::Others(_, value) => level(reader, value.get(), broken),
        Item::Named(association) => match &association.get().actual {
            Actual::Value(value) => level(reader, value, broken),
            Actual::Open(_) => Ok(None),
        },
        _ => Ok(None),
    }
}

/// Items of which levels are asked.
#[cycle(levels)]
pub(crate) fn levels_of_items(
    reader: &Reader<'_>,
    items: &[Item],
    broken: &mut Vec<Place>,
) -> Result<Option<Items<LevelExpr>>, AllocError>
    ensures tree { IfOk result (λ trees. trees ≡ (levels_of (steps.item_readings (lent reader.now) items.now)).tree) }
    ensures places { OnOk result (broken.new.items ≡ broken.old.items ++ (levels_of (steps.item_readings (lent reader.now) items.now)).places) }
{
    let mut levels = Trees::new(reader.alloc);
    for item in items {
        let level = level_of_item(reader, item, broken)?;
        levels.put(level)?;
    }
    Ok(levels.into_items())
}

/// Items in parentheses, of which a level is asked.
#[cycle(levels)]
pub(crate) fn level_in_items(
    reader: &Reader<'_>,
    items: &[Item],
    expr: &Expr,
    broken: &mut Vec<Place>,
) -> Result<Option<LevelExpr>, AllocError>
    ensures tree { IfOk result (λ tree. tree ≡ (spec.level_in_items (breach (lent reader.now) expr.now) items.now (steps.item_readings (lent reader.now) items.now)).tree) }
    ensures places { OnOk result (broken.new.items ≡ broken.old.items ++ (spec.level_in_items (breach (lent reader.now) expr.now) items.now (steps.item_readings (lent reader.now) items.now)).places) }
{
    match items {
        [item] if are_positional(items) => level_of_item(reader, item, broken),
        _ => reader.broken(expr, broken),
    }
}

/// A name of which a level is asked.
#[cycle(levels)]
fn level_of_name(
    reader: &Reader<'_>,
    name: &Reference,
    expr: &Expr,
    broken: &mut Vec<Place>,
) -> Result<Option<LevelExpr>, AllocError>
    ensures tree { IfOk result (λ tree. tree ≡ (steps.name_reading (breach (lent reader.now) expr.now) (lent reader.now) name.now).level.tree) }
    ensures places { OnOk result (broken.new.items ≡ broken.old.items ++ (steps.name_reading (breach (lent reader.now) expr.now) (lent reader.now) name.now).level.places) }
{
    match name.suffixes.as_slice() {
        [] => {
            let level = reader.position.level_named(reader.alloc, &name.identifier)?;
            reader.or_broken(level, expr, broken)
        }
        [Suffix::Items(items)] => level_of_call(reader, items.as_slice(), name, expr, broken),
        _ => reader.broken(expr, broken),
    }
}
