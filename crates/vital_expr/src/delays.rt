//! Expressions that give times and delays.

ghost use Rattle.std.specs.Prelude.{◌≡◌, ◌++◌, IfOk, OnOk};
ghost use Rattle.vital_expr.specs.Delays as spec;
ghost use Rattle.vital_expr.specs.Reading.{literals_of};
ghost use Rattle.vital_expr.specs.Readings.{breach, delay_of, reading, time_of};
ghost use Rattle.vital_expr.specs.Seen.{lent};
ghost use Rattle.vital_expr.specs.Steps as steps;
ghost use Rattle.vital_nodes.specs.declared.expr.Actual.TheViews.{out-Expr};

use crate::reader::Reader;
use crate::trees::Trees;
use sqlite_items::Items;
use std::alloc::AllocError;
use vital_base::{Place, Time};
use vital_nodes::{Choice, Expr, Item, Reference, actual};
use vital_operands::{DelayExpr, TimeExpr, are_positional, even_delay, physical_time};
use vital_timing::{Delay, DelayType};

/// The time that an expression writes itself: a number with a unit.
fn time_written(expr: &Expr) -> Option<Time>
    ensures { result ≡ spec.time_written (out-Expr expr.now) }
{
    match expr {
        Expr::Physical(physical) => physical_time(physical.get()),
        _ => None,
    }
}

/// The delay of a type with these times, if it has as many. VitalDelayType has no list.
fn listed_delay(asked: DelayType, times: &[Time]) -> Option<Delay>
    ensures { result ≡ spec.listed_delay asked times.now }
{
    match (asked, times) {
        (DelayType::Two, [tr01, tr10]) => Some(Delay::Two {
            tr01: *tr01,
            tr10: *tr10,
        }),
        (DelayType::Six, [tr01, tr10, tr0z, trz1, tr1z, trz0]) => Some(Delay::Six {
            tr01: *tr01,
            tr10: *tr10,
            tr0z: *tr0z,
            trz1: *trz1,
            tr1z: *tr1z,
            trz0: *trz0,
        }),
        _ => None,
    }
}

/// Whether a type has lists of so many times.
fn has_list(asked: DelayType, count: usize) -> bool
    ensures { result ≡ spec.has_list asked count }
{
    match asked {
        DelayType::One => false,
        DelayType::Two => count == 2,
        DelayType::Six => count == 6,
    }
}

/// A time as a delay of a type: it is one of VitalDelayType.
fn delay_of_time(asked: DelayType, time: Option<Time>) -> Option<DelayExpr>
    ensures { result ≡ spec.delay_of_time asked time }
{
    match (asked, time) {
        (DelayType::One, Some(time)) => Some(DelayExpr::Literal(Delay::One(time))),
        _ => None,
    }
}

/// The time that an expression writes itself.
#[tactic(auto, using(crate::proofs::Laws::literal_law))]
fn literal(
    reader: &Reader<'_>,
    expr: &Expr,
    broken: &mut Vec<Place>,
) -> Result<Option<Time>, AllocError>
    ensures tree { IfOk result (λ time. time ≡ ((reading (lent reader.now) expr.now).literal).tree) }
    ensures places { OnOk result (broken.new.items ≡ broken.old.items ++ ((reading (lent reader.now) expr.now).literal).places) }
{
    reader.or_broken(time_written(expr), expr, broken)
}

/// An expression of which a time is asked.
#[cycle(times)]
#[tactic(auto, using(crate::proofs::Laws::time_law))]
pub fn time(
    reader: &Reader<'_>,
    expr: &Expr,
    broken: &mut Vec<Place>,
) -> Result<Option<TimeExpr>, AllocError>
    ensures tree { IfOk result (λ tree. tree ≡ (time_of (lent reader.now) expr.now).tree) }
    ensures places { OnOk result (broken.new.items ≡ broken.old.items ++ (time_of (lent reader.now) expr.now).places) }
{
    time_by_form(reader, expr, broken)
}

/// The same, by the form of the expression.
#[cycle(times)]
fn time_by_form(
    reader: &Reader<'_>,
    expr: &Expr,
    broken: &mut Vec<Place>,
) -> Result<Option<TimeExpr>, AllocError>
    ensures tree { IfOk result (λ tree. tree ≡ (steps.time_by_form (lent reader.now) expr.now).tree) }
    ensures places { OnOk result (broken.new.items ≡ broken.old.items ++ (steps.time_by_form (lent reader.now) expr.now).places) }
{
    match expr {
        Expr::Physical(physical) => {
            let time = match physical_time(physical.get()) {
                Some(time) => Some(TimeExpr::Literal(time)),
                None => None,
            };
            reader.or_broken(time, expr, broken)
        }
        Expr::Reference(name) => time_of_name(reader, name, expr, broken),
        Expr::Parenthesized(_, items) => time_of_items(reader, items.as_slice(), expr, broken),
        _ => reader.broken(expr, broken),
    }
}

/// A name of which a time is asked.
fn time_of_name(
    reader: &Reader<'_>,
    name: &Reference,
    expr: &Expr,
    broken: &mut Vec<Place>,
) -> Result<Option<TimeExpr>, AllocError>
    ensures tree { IfOk result (λ tree. tree ≡ ((steps.name_reading (breach (lent reader.now) expr.now) (lent reader.now) name.now).time).tree) }
    ensures places { OnOk result (broken.new.items ≡ broken.old.items ++ ((steps.name_reading (breach (lent reader.now) expr.now) (lent reader.now) name.now).time).places) }
{
    if name.suffixes.as_slice().is_empty() {
        let time = reader.position.time_named(reader.alloc, &name.identifier)?;
        reader.or_broken(time, expr, broken)
    } else {
        reader.broken(expr, broken)
    }
}

/// Items in parentheses, of which a time is asked.
#[cycle(times)]
fn time_of_items(
    reader: &Reader<'_>,
    items: &[Item],
    expr: &Expr,
    broken: &mut Vec<Place>,
) -> Result<Option<TimeExpr>, AllocError>
    ensures tree { IfOk result (λ tree. tree ≡ (spec.time_in_items (breach (lent reader.now) expr.now) items.now (steps.item_readings (lent reader.now) items.now)).tree) }
    ensures places { OnOk result (broken.new.items ≡ broken.old.items ++ (spec.time_in_items (breach (lent reader.now) expr.now) items.now (steps.item_readings (lent reader.now) items.now)).places) }
{
    match items {
        [item] => time_of_item(reader, item, expr, broken),
        _ => reader.broken(expr, broken),
    }
}

/// The only item in parentheses, of which a time is asked.
#[cycle(times)]
fn time_of_item(
    reader: &Reader<'_>,
    item: &Item,
    expr: &Expr,
    broken: &mut Vec<Place>,
) -> Result<Option<TimeExpr>, AllocError>
    ensures tree { IfOk result (λ tree. tree ≡ (spec.time_in_item (breach (lent reader.now) expr.now) item.now (steps.item_reading (lent reader.now) item.now)).tree) }
    ensures places { OnOk result (broken.new.items ≡ broken.old.items ++ (spec.time_in_item (breach (lent reader.now) expr.now) item.now (steps.item_reading (lent reader.now) item.now)).places) }
{
    match item {
        Item::Positional(Choice::Value(value)) => time(reader, value, broken),
        _ => reader.broken(expr, broken),
    }
}

/// An expression of which a delay of a type is asked.
#[cycle(delays)]
#[tactic(auto, using(crate::proofs::Laws::delay_law))]
pub fn delay(
    reader: &Reader<'_>,
    asked: DelayType,
    expr: &Expr,
    broken: &mut Vec<Place>,
) -> Result<Option<DelayExpr>, AllocError>
    ensures tree { IfOk result (λ tree. tree ≡ (delay_of (lent reader.now) asked expr.now).tree) }
    ensures places { OnOk result (broken.new.items ≡ broken.old.items ++ (delay_of (lent reader.now) asked expr.now).places) }
{
    delay_by_form(reader, asked, expr, broken)
}

/// The same, by the form of the expression.
#[cycle(delays)]
fn delay_by_form(
    reader: &Reader<'_>,
    asked: DelayType,
    expr: &Expr,
    broken: &mut Vec<Place>,
) -> Result<Option<DelayExpr>, AllocError>
    ensures tree { IfOk result (λ tree. tree ≡ (steps.delay_by_form (lent reader.now) asked expr.now).tree) }
    ensures places { OnOk result (broken.new.items ≡ broken.old.items ++ (steps.delay_by_form (lent reader.now) asked expr.now).places) }
{
    match expr {
        Expr::Physical(physical) => {
            let delay = delay_of_time(asked, physical_time(physical.get()));
            reader.or_broken(delay, expr, broken)
        }
        Expr::Reference(name) => delay_of_name(reader, asked, name, expr, broken),
        Expr::Parenthesized(_, items) => {
            delay_of_items(reader, asked, items.as_slice(), expr, broken)
        }
        _ => reader.broken(expr, broken),
    }
}

/// A name of which a delay is asked.
fn delay_of_name(
    reader: &Reader<'_>,
    asked: DelayType,
    name: &Reference,
    expr: &Expr,
    broken: &mut Vec<Place>,
) -> Result<Option<DelayExpr>, AllocError>
    ensures tree { IfOk result (λ tree. tree ≡ ((steps.name_reading (breach (lent reader.now) expr.now) (lent reader.now) name.now).delay asked).tree) }
    ensures places { OnOk result (broken.new.items ≡ broken.old.items ++ ((steps.name_reading (breach (lent reader.now) expr.now) (lent reader.now) name.now).delay asked).places) }
{
    if name.suffixes.as_slice().is_empty() {
        let delay = reader
            .position
            .delay_named(reader.alloc, asked, &name.identifier)?;
        reader.or_broken(delay, expr, broken)
    } else {
        reader.broken(expr, broken)
    }
}

/// Items in parentheses, of which a delay is asked.
#[cycle(delays)]
fn delay_of_items(
    reader: &Reader<'_>,
    asked: DelayType,
    items: &[Item],
    expr: &Expr,
    broken: &mut Vec<Place>,
) -> Result<Option<DelayExpr>, AllocError>
    ensures tree { IfOk result (λ tree. tree ≡ (spec.delay_in_items (breach (lent reader.now) expr.now) asked items.now (steps.item_readings (lent reader.now) items.now)).tree) }
    ensures places { OnOk result (broken.new.items ≡ broken.old.items ++ (spec.delay_in_items (breach (lent reader.now) expr.now) asked items.now (steps.item_readings (lent reader.now) items.now)).places) }
{
    match items {
        [] => reader.broken(expr, broken),
        [item] => delay_of_item(reader, asked, item, expr, broken),
        _ => delay_of_several(reader, asked, items, expr, broken),
    }
}

/// The only item in parentheses, of which a delay is asked.
#[cycle(delays)]
fn delay_of_item(
    reader: &Reader<'_>,
    asked: DelayType,
    item: &Item,
    expr: &Expr,
    broken: &mut Vec<Place>,
) -> Result<Option<DelayExpr>, AllocError>
    ensures tree { IfOk result (λ tree. tree ≡ (spec.delay_in_item (breach (lent reader.now) expr.now) asked item.now (steps.item_reading (lent reader.now) item.now)).tree) }
    ensures places { OnOk result (broken.new.items ≡ broken.old.items ++ (spec.delay_in_item (breach (lent reader.now) expr.now) asked item.now (steps.item_reading (lent reader.now) item.now)).places) }
{
    match item {
        Item::Positional(Choice::Value(value)) => delay(reader, asked, value, broken),
        Item::Others(_, value) => delay_of_others(reader, asked, value.get(), expr, broken),
        _ => reader.broken(expr, broken),
    }
}

/// One time for each transition, where the type has several.
fn delay_of_others(
    reader: &Reader<'_>,
    asked: DelayType,
    value: &Expr,
    expr: &Expr,
    broken: &mut Vec<Place>,
) -> Result<Option<DelayExpr>, AllocError>
    ensures tree { IfOk result (λ tree. tree ≡ (spec.delay_by_others (breach (lent reader.now) expr.now) asked (reading (lent reader.now) value.now)).tree) }
    ensures places { OnOk result (broken.new.items ≡ broken.old.items ++ (spec.delay_by_others (breach (lent reader.now) expr.now) asked (reading (lent reader.now) value.now)).places) }
{
    if asked == DelayType::One {
        return reader.broken(expr, broken);
    }
    match literal(reader, value, broken)? {
        Some(time) => Ok(Some(DelayExpr::Literal(even_delay(asked, time)))),
        None => Ok(None),
    }
}

/// Two items or more, of which a delay is asked.
fn delay_of_several(
    reader: &Reader<'_>,
    asked: DelayType,
    items: &[Item],
    expr: &Expr,
    broken: &mut Vec<Place>,
) -> Result<Option<DelayExpr>, AllocError>
    ensures tree { IfOk result (λ tree. tree ≡ (spec.delay_of_several (breach (lent reader.now) expr.now) asked items.now (steps.item_readings (lent reader.now) items.now)).tree) }
    ensures places { OnOk result (broken.new.items ≡ broken.old.items ++ (spec.delay_of_several (breach (lent reader.now) expr.now) asked items.now (steps.item_readings (lent reader.now) items.now)).places) }
{
    if !has_list(asked, items.len()) || !are_positional(items) {
        return reader.broken(expr, broken);
    }
    match literals(reader, items, broken)? {
        Some(times) => {
            let delay = match listed_delay(asked, times.as_slice()) {
                Some(delay) => Some(DelayExpr::Literal(delay)),
                None => None,
            };
            reader.or_broken(delay, expr, broken)
        }
        None => Ok(None),
    }
}

/// The times that items write.
fn literals(
    reader: &Reader<'_>,
    items: &[Item],
    broken: &mut Vec<Place>,
) -> Result<Option<Items<Time>>, AllocError>
    ensures tree { IfOk result (λ times. times ≡ (literals_of (steps.item_readings (lent reader.now) items.now)).tree) }
    ensures places { OnOk result (broken.new.items ≡ broken.old.items ++ (literals_of (steps.item_readings (lent reader.now) items.now)).places) }
{
    let mut times = Trees::new(reader.alloc);
    for item in items {
        let time = literal_of_item(reader, item, broken)?;
        times.put(time)?;
    }
    Ok(times.into_items())
}

/// The time that an item writes.
fn literal_of_item(
    reader: &Reader<'_>,
    item: &Item,
    broken: &mut Vec<Place>,
) -> Result<Option<Time>, AllocError>
    ensures tree { IfOk result (λ time. time ≡ (steps.item_reading (lent reader.now) item.now).literal.tree) }
    ensures places { OnOk result (broken.new.items ≡ broken.old.items ++ (steps.item_reading (lent reader.now) item.now).literal.places) }
{
    match actual(item) {
        Some(value) => literal(reader, value, broken),
        None => Ok(None),
    }
}
