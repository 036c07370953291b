//! Paths of path delays (IEEE 1076.4, VitalPathArrayType).

ghost use Rattle.std.specs.Prelude.{◌≡◌, ◌==◌, ◌++◌, [], map, IfOk, OnOk};
ghost use Rattle.std.specs.Option.{option_copied, option_map};
ghost use Rattle.vital_actuals.specs.Paths as spec;
ghost use Rattle.vital_declarations.specs.Numbers.{number as number'};
ghost use Rattle.vital_expr.specs.Outcomes.{all_typed, both_by};
ghost use Rattle.vital_expr.specs.Seen.{lent};

use crate::actual::Path;
use crate::kind::name_for;
use sqlite_items::Items;
use std::alloc::AllocError;
use vital_base::{Name, Place};
use vital_calls::ActualForm;
use vital_declarations::literal_value;
use vital_expr::{Reader, Trees, boolean, delay};
use vital_nodes::{
    Actual, Choice, Expr, Item, Reference, Suffix, actual, formal, identifier_of, listed_items,
    literal_integer, positional_value,
};
use vital_operands::{BooleanExpr, DelayExpr, are_positional};
use vital_timing::DelayType;

// ---- the parts of a path

/// What a path is given by.
#[derive(Clone, Copy)]
pub struct PathParts<'a> {
    /// When its input changed.
    pub change: &'a Expr,
    pub delay: &'a Expr,
    /// The condition under which it counts.
    pub condition: &'a Expr,
}

/// The value that an item gives by a name.
fn value_behind(item: &Item) -> Option<&Expr>
    ensures { option_copied result ≡ spec.value_behind item.now }
{
    match item {
        Item::Named(association) => match &association.get().actual {
            Actual::Value(value) => Some(value),
            Actual::Open(_) => None,
        },
        _ => None,
    }
}

/// Whether an item comes by a name.
fn is_named(name: &[u8], item: &Item) -> bool
    ensures { result ≡ spec.is_named name.now item.now }
{
    match formal(item) {
        Some(Choice::Value(value)) => match identifier_of(value) {
            Some(identifier) => identifier.name.as_slice() == name,
            None => false,
        },
        _ => false,
    }
}

/// The value that an item gives by a name that is this one.
fn value_named<'a>(name: &[u8], item: &'a Item) -> Option<&'a Expr>
    ensures { option_copied result ≡ spec.value_named name.now item.now }
{
    if is_named(name, item) {
        value_behind(item)
    } else {
        None
    }
}

/// Three parts, if all are given.
fn parts_from<'a>(
    change: Option<&'a Expr>,
    delay: Option<&'a Expr>,
    condition: Option<&'a Expr>,
) -> Option<PathParts<'a>>
    ensures { option_map spec.lent_parts result ≡ spec.parts_from (option_copied change.entry) (option_copied delay.entry) (option_copied condition.entry) }
{
    Some(PathParts {
        change: change?,
        delay: delay?,
        condition: condition?,
    })
}

/// Parts that come by name, in their order.
fn named_parts<'a>(first: &'a Item, second: &'a Item, third: &'a Item) -> Option<PathParts<'a>>
    ensures { option_map spec.lent_parts result ≡ spec.named_parts first.now second.now third.now }
{
    parts_from(
        value_named(b"inputchangetime", first),
        value_named(b"pathdelay", second),
        value_named(b"pathcondition", third),
    )
}

/// Parts that come by position.
fn positional_parts<'a>(first: &'a Item, second: &'a Item, third: &'a Item) -> Option<PathParts<'a>>
    ensures { option_map spec.lent_parts result ≡ spec.positional_parts first.now second.now third.now }
{
    parts_from(
        positional_value(first),
        positional_value(second),
        positional_value(third),
    )
}

/// The three parts of a path, which are given by position, or all by name in their order.
fn parts_of_items(items: &[Item]) -> Option<PathParts<'_>>
    ensures { option_map spec.lent_parts result ≡ spec.parts_of_items items.now }
{
    match items {
        [first, second, third] => {
            if are_positional(items) {
                positional_parts(first, second, third)
            } else {
                named_parts(first, second, third)
            }
        }
        _ => None,
    }
}

/// The parts of a path.
fn path_parts(expr: &Expr) -> Option<PathParts<'_>>
    ensures { option_map spec.lent_parts result ≡ spec.path_parts expr.now }
{
    match listed_items(expr) {
        Some(items) => parts_of_items(items),
        None => None,
    }
}

// ---- when an input changed

/// Whether `'LAST_EVENT` is all that stands behind an identifier.
fn is_last_event(suffixes: &[Suffix]) -> bool
    ensures { result ≡ spec.is_last_event suffixes.now }
{
    match suffixes {
        [Suffix::Attribute(identifier)] => identifier.name.as_slice() == b"last_event".as_slice(),
        _ => false,
    }
}

/// The signal or port of `S'LAST_EVENT`.
fn change_named(reader: &Reader<'_>, name: &Reference) -> Result<Option<Name>, AllocError>
    ensures { IfOk result (λ signal. signal ≡ spec.change_named (lent reader.now).position name.now) }
{
    if is_last_event(name.suffixes.as_slice()) {
        name_for(
            reader.alloc,
            &reader.position,
            ActualForm::Signal,
            &name.identifier,
        )
    } else {
        Ok(None)
    }
}

/// The signal or port of an expression that is `S'LAST_EVENT`.
fn change_in(reader: &Reader<'_>, expr: &Expr) -> Result<Option<Name>, AllocError>
    ensures { IfOk result (λ signal. signal ≡ spec.change_at (lent reader.now).position expr.now) }
{
    match expr {
        Expr::Reference(name) => change_named(reader, name),
        _ => Ok(None),
    }
}

/// The signal or port from whose last event a path counts.
fn change(
    reader: &Reader<'_>,
    expr: &Expr,
    broken: &mut Vec<Place>,
) -> Result<Option<Name>, AllocError>
    ensures tree { IfOk result (λ signal. signal ≡ (spec.change_of (lent reader.now) expr.now).tree) }
    ensures places { OnOk result (broken.new.items ≡ broken.old.items ++ (spec.change_of (lent reader.now) expr.now).places) }
{
    let signal = change_in(reader, expr)?;
    reader.or_broken(signal, expr, broken)
}

// ---- paths

/// A path, if its three parts are of their forms.
fn path_if_typed(
    signal: Option<Name>,
    delay: Option<DelayExpr>,
    condition: Option<BooleanExpr>,
) -> Option<Path>
    ensures { result ≡ (both_by spec.path_typed signal (both_by spec.pair_typed delay condition []).tree []).tree }
{
    match signal.zip(delay.zip(condition)) {
        Some((signal, (delay, condition))) => Some(Path {
            signal,
            delay,
            condition,
        }),
        None => None,
    }
}

/// A path of its parts.
#[tactic(auto, using(crate::proofs::PathLaws::path_places, crate::proofs::PathLaws::path_tree))]
fn path_of_parts(
    reader: &Reader<'_>,
    asked: DelayType,
    parts: PathParts<'_>,
    broken: &mut Vec<Place>,
) -> Result<Option<Path>, AllocError>
    ensures tree { IfOk result (λ path. path ≡ (spec.path_of_parts (lent reader.now) asked (spec.lent_parts parts.entry)).tree) }
    ensures places { OnOk result (broken.new.items ≡ broken.old.items ++ (spec.path_of_parts (lent reader.now) asked (spec.lent_parts parts.entry)).places) }
{
    let signal = change(reader, parts.change, broken)?;
    let delay = delay(reader, asked, parts.delay, broken)?;
    let condition = boolean(reader, parts.condition, broken)?;
    Ok(path_if_typed(signal, delay, condition))
}

/// A path. One that is not three parts breaks a clause itself.
fn path(
    reader: &Reader<'_>,
    asked: DelayType,
    expr: &Expr,
    broken: &mut Vec<Place>,
) -> Result<Option<Path>, AllocError>
    ensures tree { IfOk result (λ path. path ≡ (spec.path_of (lent reader.now) asked expr.now).tree) }
    ensures places { OnOk result (broken.new.items ≡ broken.old.items ++ (spec.path_of (lent reader.now) asked expr.now).places) }
{
    match path_parts(expr) {
        Some(parts) => path_of_parts(reader, asked, parts, broken),
        None => reader.broken(expr, broken),
    }
}

// ---- lists of paths

/// Whether a literal writes this number.
fn is_number(literal: &Name, number: usize) -> bool
    ensures { result ≡ (number' literal.now == number) }
{
    match literal_value(literal.as_slice()) {
        Some(value) => value == number,
        None => false,
    }
}

/// The literal index before `=>`.
fn index_of(item: &Item) -> Option<&Name>
    ensures { option_copied result ≡ spec.index_of item.now }
{
    match formal(item) {
        Some(Choice::Value(value)) => literal_integer(value),
        _ => None,
    }
}

/// Whether an item has an index, and a value behind it.
fn is_at(index: usize, item: &Item) -> bool
    ensures { result ≡ spec.is_at index item.now }
{
    match index_of(item) {
        Some(literal) => is_number(literal, index) && actual(item).is_some(),
        None => false,
    }
}

/// Whether items have the indices 0, 1 and so on in order.
fn are_indexed(items: &[Item]) -> bool
    ensures { result ≡ spec.are_indexed items.now }
{
    items
        .iter()
        .enumerate()
        .all(|(index, item)| is_at(index, item))
}

/// A path that an item of a list is.
fn path_of_item(
    reader: &Reader<'_>,
    asked: DelayType,
    item: &Item,
    broken: &mut Vec<Place>,
) -> Result<Option<Path>, AllocError>
    ensures tree { IfOk result (λ path. path ≡ (spec.path_of_item (lent reader.now) asked item.now).tree) }
    ensures places { OnOk result (broken.new.items ≡ broken.old.items ++ (spec.path_of_item (lent reader.now) asked item.now).places) }
{
    match actual(item) {
        Some(value) => path(reader, asked, value, broken),
        None => Ok(None),
    }
}

/// The paths that the items of a list are.
fn paths_of_items(
    reader: &Reader<'_>,
    asked: DelayType,
    items: &[Item],
    broken: &mut Vec<Place>,
) -> Result<Option<Items<Path>>, AllocError>
    ensures tree { IfOk result (λ paths. paths ≡ (all_typed (map (spec.path_of_item (lent reader.now) asked) items.now)).tree) }
    ensures places { OnOk result (broken.new.items ≡ broken.old.items ++ (all_typed (map (spec.path_of_item (lent reader.now) asked) items.now)).places) }
{
    let mut paths = Trees::new(reader.alloc);
    for item in items {
        let path = path_of_item(reader, asked, item, broken)?;
        paths.put(path)?;
    }
    Ok(paths.into_items())
}

/// The paths of a list, if its items are all by position or all with their indices.
fn paths_listed(
    reader: &Reader<'_>,
    asked: DelayType,
    items: &[Item],
    expr: &Expr,
    broken: &mut Vec<Place>,
) -> Result<Option<Items<Path>>, AllocError>
    ensures tree { IfOk result (λ paths. paths ≡ (spec.paths_in_items (lent reader.now) asked expr.now items.now).tree) }
    ensures places { OnOk result (broken.new.items ≡ broken.old.items ++ (spec.paths_in_items (lent reader.now) asked expr.now items.now).places) }
{
    if are_positional(items) || are_indexed(items) {
        paths_of_items(reader, asked, items, broken)
    } else {
        reader.broken(expr, broken)
    }
}

/// A list of paths whose delays are of a type.
pub fn paths(
    reader: &Reader<'_>,
    asked: DelayType,
    expr: &Expr,
    broken: &mut Vec<Place>,
) -> Result<Option<Items<Path>>, AllocError>
    ensures tree { IfOk result (λ paths. paths ≡ (spec.paths_of (lent reader.now) asked expr.now).tree) }
    ensures places { OnOk result (broken.new.items ≡ broken.old.items ++ (spec.paths_of (lent reader.now) asked expr.now).places) }
{
    match listed_items(expr) {
        Some(items) => paths_listed(reader, asked, items, expr, broken),
        None => reader.broken(expr, broken),
    }
}
