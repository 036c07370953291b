//! Where faults of associations stand.

ghost use Rattle.std.specs.Prelude.{◌≡◌, map, IfOk};
ghost use Rattle.std.specs.List.{find};
ghost use Rattle.std.specs.Option.{option_copied};
ghost use Rattle.vital_associations.specs.Points as spec;

use crate::identifiers::{identifiers_of_choice, identifiers_of_expr};
use std::alloc::{AllocError, Global};
use vital_base::Place;
use vital_nodes::{Actual, Choice, Expr, HasPlace, Identifier, Item};

/// A place, and the identifier that stands there, if one does.
#[derive(Clone, Copy)]
pub struct Point<'a> {
    pub place: Place,
    pub identifier: Option<&'a Identifier>,
}

/// Whether an identifier stands at a place.
fn stands_at(identifier: &Identifier, place: Place) -> bool
    ensures { result ≡ spec.stands_at place identifier.now }
{
    !(identifier.place < place) && !(place < identifier.place)
}

/// The identifier that stands at a place, if one of these does.
fn identifier_at<'a>(identifiers: &[&'a Identifier], place: Place) -> Option<&'a Identifier>
    ensures { option_copied result ≡ find (spec.stands_at place) (map (λ i. i.now) identifiers.now) }
{
    for identifier in identifiers {
        if stands_at(identifier, place) {
            return Some(identifier);
        }
    }
    None
}

/// The only identifier, if there is no other one.
fn only<'a>(identifiers: &[&'a Identifier]) -> Option<&'a Identifier>
    ensures { option_copied result ≡ spec.only (map (λ i. i.now) identifiers.now) }
{
    match identifiers {
        [identifier] => Some(identifier),
        _ => None,
    }
}

/// A place with no identifier at it.
fn bare<'a>(place: Place) -> Point<'a>
    ensures { spec.lent result ≡ spec.bare place }
{
    Point {
        place,
        identifier: None,
    }
}

/// A place, with the one of these identifiers that stands there, if one does.
fn at_place<'a>(place: Place, identifiers: &[&'a Identifier]) -> Point<'a>
    ensures { spec.lent result ≡ spec.at_place place (map (λ i. i.now) identifiers.now) }
{
    Point {
        place,
        identifier: identifier_at(identifiers, place),
    }
}

/// The first token of a value or a range.
fn start_of_choice<'a>(alloc: Global, choice: &'a Choice) -> Result<Point<'a>, AllocError>
    ensures { IfOk result (λ point. spec.lent point ≡ spec.start_of_choice choice.now) }
{
    let identifiers = identifiers_of_choice(alloc, choice)?;
    Ok(at_place(choice.place(), &identifiers))
}

/// The first token of an expression.
fn start_of_expr<'a>(alloc: Global, expr: &'a Expr) -> Result<Point<'a>, AllocError>
    ensures { IfOk result (λ point. spec.lent point ≡ spec.start_of_expr expr.now) }
{
    let identifiers = identifiers_of_expr(alloc, expr)?;
    Ok(at_place(expr.place(), &identifiers))
}

/// The identifier of a formal before `=>`, or its first token where it has none or more than one.
fn formal_before_arrow<'a>(alloc: Global, choice: &'a Choice) -> Result<Point<'a>, AllocError>
    ensures { IfOk result (λ point. spec.lent point ≡ spec.formal_before_arrow choice.now) }
{
    let identifiers = identifiers_of_choice(alloc, choice)?;
    match only(&identifiers) {
        Some(identifier) => Ok(Point {
            place: identifier.place,
            identifier: Some(identifier),
        }),
        None => Ok(at_place(choice.place(), &identifiers)),
    }
}

/// Where the faults of the formal of an item stand. The first token of an item by its position stands for its formal.
pub fn formal_point<'a>(alloc: Global, item: &'a Item) -> Result<Point<'a>, AllocError>
    ensures { IfOk result (λ point. spec.lent point ≡ spec.formal_point item.now) }
{
    match item {
        Item::Others(place, _) | Item::Open(place) => Ok(bare(*place)),
        Item::Positional(choice) => start_of_choice(alloc, choice),
        Item::Named(association) => formal_before_arrow(alloc, &association.get().formal),
    }
}

/// The first token of an actual behind `=>`.
fn start_of_actual<'a>(alloc: Global, actual: &'a Actual) -> Result<Point<'a>, AllocError>
    ensures { IfOk result (λ point. spec.lent point ≡ spec.start_of_actual actual.now) }
{
    match actual {
        Actual::Value(value) => start_of_expr(alloc, value),
        Actual::Open(place) => Ok(bare(*place)),
    }
}

/// Where the faults of the actual of an item stand: at its first token.
pub fn actual_point<'a>(alloc: Global, item: &'a Item) -> Result<Point<'a>, AllocError>
    ensures { IfOk result (λ point. spec.lent point ≡ spec.actual_point item.now) }
{
    match item {
        Item::Others(_, value) => start_of_expr(alloc, value.get()),
        Item::Open(place) => Ok(bare(*place)),
        Item::Positional(choice) => start_of_choice(alloc, choice),
        Item::Named(association) => start_of_actual(alloc, &association.get().actual),
    }
}
