//! Expressions that give truth values.

ghost use Rattle.std.specs.Prelude.{◌≡◌, ◌++◌, IfOk, OnOk, is_some};
ghost use Rattle.std.specs.Option.{option_map};
ghost use Rattle.vital_expr.specs.Booleans as spec;
ghost use Rattle.vital_expr.specs.Outcomes.{both, map_typed};
ghost use Rattle.vital_expr.specs.Reading.{booleans_of, first_of};
ghost use Rattle.vital_expr.specs.Readings.{boolean_of, breach, reading};
ghost use Rattle.vital_expr.specs.Seen.{lent};
ghost use Rattle.vital_expr.specs.Steps as steps;
ghost use Rattle.vital_operands.specs.declared.tree.BooleanExpr.TheVariants as truth;

use crate::equality::{Equality, compared_if_typed};
use crate::levels::level;
use crate::reader::Reader;
use crate::side::Side;
use crate::trees::Trees;
use sqlite_items::{Boxed, Items};
use std::alloc::AllocError;
use vital_base::Place;
use vital_nodes::{Choice, Expr, Item, Logical, Reference, Relation, Relational};
use vital_operands::BooleanExpr;

/// Whether the first operand in an expression is a truth value.
#[cycle(kinds)]
#[tactic(auto, using(crate::proofs::Laws::is_boolean_law))]
fn is_boolean(reader: &Reader<'_>, expr: &Expr) -> bool
    ensures { result ≡ (reading (lent reader.now) expr.now).is_boolean }
{
    is_boolean_by_form(reader, expr)
}

/// The same, by the form of the expression. A relation is one.
#[cycle(kinds)]
fn is_boolean_by_form(reader: &Reader<'_>, expr: &Expr) -> bool
    ensures { result ≡ steps.is_boolean_by_form (lent reader.now) expr.now }
{
    match expr {
        Expr::Logical(_, _, operands) => is_first_boolean(reader, operands.as_slice()),
        Expr::Not(_, operand) => is_boolean(reader, operand.get()),
        Expr::Relation(_) => true,
        Expr::Reference(name) => is_name_boolean(reader, name, expr),
        Expr::Parenthesized(_, items) => are_items_boolean(reader, items.as_slice()),
        _ => false,
    }
}

/// Whether the first operand in the first of operands is a truth value.
#[cycle(kinds)]
fn is_first_boolean(reader: &Reader<'_>, operands: &[Expr]) -> bool
    ensures { result ≡ (first_of (steps.readings (lent reader.now) operands.now)).is_boolean }
{
    match operands {
        [first, ..] => is_boolean(reader, first),
        _ => false,
    }
}

/// Whether a name is a truth value.
fn is_name_boolean(reader: &Reader<'_>, name: &Reference, expr: &Expr) -> bool
    ensures { result ≡ (steps.name_reading (breach (lent reader.now) expr.now) (lent reader.now) name.now).is_boolean }
{
    name.suffixes.as_slice().is_empty() && reader.position.boolean_named(&name.identifier).is_some()
}

/// Whether the first operand in items in parentheses is a truth value.
#[cycle(kinds)]
fn are_items_boolean(reader: &Reader<'_>, items: &[Item]) -> bool
    ensures { result ≡ spec.is_boolean_in_items items.now (steps.item_readings (lent reader.now) items.now) }
{
    match items {
        [item] => is_item_boolean(reader, item),
        _ => false,
    }
}

/// Whether the first operand in the only item in parentheses is a truth value.
#[cycle(kinds)]
fn is_item_boolean(reader: &Reader<'_>, item: &Item) -> bool
    ensures { result ≡ spec.is_boolean_in_item item.now (steps.item_reading (lent reader.now) item.now) }
{
    match item {
        Item::Positional(Choice::Value(value)) => is_boolean(reader, value),
        _ => false,
    }
}

/// An expression of which a truth value is asked.
#[cycle(booleans)]
#[tactic(auto, using(crate::proofs::Laws::boolean_law))]
pub fn boolean(
    reader: &Reader<'_>,
    expr: &Expr,
    broken: &mut Vec<Place>,
) -> Result<Option<BooleanExpr>, AllocError>
    ensures tree { IfOk result (λ tree. tree ≡ (boolean_of (lent reader.now) expr.now).tree) }
    ensures places { OnOk result (broken.new.items ≡ broken.old.items ++ (boolean_of (lent reader.now) expr.now).places) }
{
    boolean_by_form(reader, expr, broken)
}

/// The same, by the form of the expression.
#[cycle(booleans)]
fn boolean_by_form(
    reader: &Reader<'_>,
    expr: &Expr,
    broken: &mut Vec<Place>,
) -> Result<Option<BooleanExpr>, AllocError>
    ensures tree { IfOk result (λ tree. tree ≡ (steps.boolean_by_form (lent reader.now) expr.now).tree) }
    ensures places { OnOk result (broken.new.items ≡ broken.old.items ++ (steps.boolean_by_form (lent reader.now) expr.now).places) }
{
    match expr {
        Expr::Logical(_, operator, operands) => {
            boolean_of_operands(reader, operands.as_slice(), *operator, broken)
        }
        Expr::Not(_, operand) => boolean_of_opposite(reader, operand.get(), broken),
        Expr::Relation(relation) => related(reader, relation.get(), expr, broken),
        Expr::Reference(name) => boolean_of_name(reader, name, expr, broken),
        Expr::Parenthesized(_, items) => boolean_of_items(reader, items.as_slice(), expr, broken),
        _ => reader.broken(expr, broken),
    }
}

/// Operands with a logical operator between them, of which truth values are asked.
#[cycle(booleans)]
fn boolean_of_operands(
    reader: &Reader<'_>,
    operands: &[Expr],
    operator: Logical,
    broken: &mut Vec<Place>,
) -> Result<Option<BooleanExpr>, AllocError>
    ensures tree { IfOk result (λ tree. tree ≡ (map_typed (λ ts. truth.Logical operator ts) (booleans_of (steps.readings (lent reader.now) operands.now))).tree) }
    ensures places { OnOk result (broken.new.items ≡ broken.old.items ++ (map_typed (λ ts. truth.Logical operator ts) (booleans_of (steps.readings (lent reader.now) operands.now))).places) }
{
    match booleans(reader, operands, broken)? {
        Some(booleans) => Ok(Some(BooleanExpr::Logical(operator, booleans))),
        None => Ok(None),
    }
}

/// Operands of which truth values are asked.
#[cycle(booleans)]
fn booleans(
    reader: &Reader<'_>,
    operands: &[Expr],
    broken: &mut Vec<Place>,
) -> Result<Option<Items<BooleanExpr>>, AllocError>
    ensures tree { IfOk result (λ trees. trees ≡ (booleans_of (steps.readings (lent reader.now) operands.now)).tree) }
    ensures places { OnOk result (broken.new.items ≡ broken.old.items ++ (booleans_of (steps.readings (lent reader.now) operands.now)).places) }
{
    let mut booleans = Trees::new(reader.alloc);
    for operand in operands {
        let boolean = boolean(reader, operand, broken)?;
        booleans.put(boolean)?;
    }
    Ok(booleans.into_items())
}

/// What stands behind `not`, of which a truth value is asked.
#[cycle(booleans)]
fn boolean_of_opposite(
    reader: &Reader<'_>,
    operand: &Expr,
    broken: &mut Vec<Place>,
) -> Result<Option<BooleanExpr>, AllocError>
    ensures tree { IfOk result (λ tree. tree ≡ (map_typed (λ t. truth.Not t) (boolean_of (lent reader.now) operand.now)).tree) }
    ensures places { OnOk result (broken.new.items ≡ broken.old.items ++ (map_typed (λ t. truth.Not t) (boolean_of (lent reader.now) operand.now)).places) }
{
    match boolean(reader, operand, broken)? {
        Some(boolean) => Ok(Some(BooleanExpr::Not(Boxed::new(reader.alloc, boolean)?))),
        None => Ok(None),
    }
}

/// A side of a relation: a truth value where the first operand in it is one, and else a level.
#[cycle(booleans)]
fn side(
    reader: &Reader<'_>,
    expr: &Expr,
    broken: &mut Vec<Place>,
) -> Result<Option<Side>, AllocError>
    ensures tree { IfOk result (λ side. side ≡ (spec.side_of (reading (lent reader.now) expr.now)).tree) }
    ensures places { OnOk result (broken.new.items ≡ broken.old.items ++ (spec.side_of (reading (lent reader.now) expr.now)).places) }
{
    if is_boolean(reader, expr) {
        match boolean(reader, expr, broken)? {
            Some(boolean) => Ok(Some(Side::Boolean(boolean))),
            None => Ok(None),
        }
    } else {
        match level(reader, expr, broken)? {
            Some(level) => Ok(Some(Side::Level(level))),
            None => Ok(None),
        }
    }
}

/// A relation. Of the operators `=` and `/=` compare levels and truth values.
#[cycle(booleans)]
fn related(
    reader: &Reader<'_>,
    relation: &Relation,
    expr: &Expr,
    broken: &mut Vec<Place>,
) -> Result<Option<BooleanExpr>, AllocError>
    ensures tree { IfOk result (λ tree. tree ≡ (spec.related_by (breach (lent reader.now) expr.now) relation.now.operator (reading (lent reader.now) relation.now.left) (reading (lent reader.now) relation.now.right)).tree) }
    ensures places { OnOk result (broken.new.items ≡ broken.old.items ++ (spec.related_by (breach (lent reader.now) expr.now) relation.now.operator (reading (lent reader.now) relation.now.left) (reading (lent reader.now) relation.now.right)).places) }
{
    match relation.operator {
        Relational::Equal => compared(reader, Equality::Same, relation, expr, broken),
        Relational::NotEqual => compared(reader, Equality::Other, relation, expr, broken),
        _ => reader.broken(expr, broken),
    }
}

/// Two sides that are compared.
#[cycle(booleans)]
#[tactic(auto, using(crate::proofs::Both::places_before, crate::proofs::Both::tree_apart))]
fn compared(
    reader: &Reader<'_>,
    equality: Equality,
    relation: &Relation,
    expr: &Expr,
    broken: &mut Vec<Place>,
) -> Result<Option<BooleanExpr>, AllocError>
    ensures tree { IfOk result (λ tree. tree ≡ (both (spec.compared (breach (lent reader.now) expr.now) equality) (spec.side_of (reading (lent reader.now) relation.now.left)) (spec.side_of (reading (lent reader.now) relation.now.right))).tree) }
    ensures places { OnOk result (broken.new.items ≡ broken.old.items ++ (both (spec.compared (breach (lent reader.now) expr.now) equality) (spec.side_of (reading (lent reader.now) relation.now.left)) (spec.side_of (reading (lent reader.now) relation.now.right))).places) }
{
    let left = side(reader, &relation.left, broken)?;
    let right = side(reader, &relation.right, broken)?;
    compared_if_typed(reader, equality, left, right, expr, broken)
}

/// A name of which a truth value is asked.
fn boolean_of_name(
    reader: &Reader<'_>,
    name: &Reference,
    expr: &Expr,
    broken: &mut Vec<Place>,
) -> Result<Option<BooleanExpr>, AllocError>
    ensures tree { IfOk result (λ tree. tree ≡ ((steps.name_reading (breach (lent reader.now) expr.now) (lent reader.now) name.now).boolean).tree) }
    ensures places { OnOk result (broken.new.items ≡ broken.old.items ++ ((steps.name_reading (breach (lent reader.now) expr.now) (lent reader.now) name.now).boolean).places) }
{
    if name.suffixes.as_slice().is_empty() {
        reader.or_broken(
            reader.position.boolean_named(&name.identifier),
            expr,
            broken,
        )
    } else {
        reader.broken(expr, broken)
    }
}

/// Items in parentheses, of which a truth value is asked.
#[cycle(booleans)]
fn boolean_of_items(
    reader: &Reader<'_>,
    items: &[Item],
    expr: &Expr,
    broken: &mut Vec<Place>,
) -> Result<Option<BooleanExpr>, AllocError>
    ensures tree { IfOk result (λ tree. tree ≡ (spec.boolean_in_items (breach (lent reader.now) expr.now) items.now (steps.item_readings (lent reader.now) items.now)).tree) }
    ensures places { OnOk result (broken.new.items ≡ broken.old.items ++ (spec.boolean_in_items (breach (lent reader.now) expr.now) items.now (steps.item_readings (lent reader.now) items.now)).places) }
{
    match items {
        [item] => boolean_of_item(reader, item, expr, broken),
        _ => reader.broken(expr, broken),
    }
}

/// The only item in parentheses, of which a truth value is asked.
#[cycle(booleans)]
fn boolean_of_item(
    reader: &Reader<'_>,
    item: &Item,
    expr: &Expr,
    broken: &mut Vec<Place>,
) -> Result<Option<BooleanExpr>, AllocError>
    ensures tree { IfOk result (λ tree. tree ≡ (spec.boolean_in_item (breach (lent reader.now) expr.now) item.now (steps.item_reading (lent reader.now) item.now)).tree) }
    ensures places { OnOk result (broken.new.items ≡ broken.old.items ++ (spec.boolean_in_item (breach (lent reader.now) expr.now) item.now (steps.item_reading (lent reader.now) item.now)).places) }
{
    match item {
        Item::Positional(Choice::Value(value)) => boolean(reader, value, broken),
        _ => reader.broken(expr, broken),
    }
}
