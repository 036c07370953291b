//! The limits that expressions, items and names pass with all that they hold: those of their time literals.

ghost use Rattle.std.specs.Prelude.{◌≡◌, ◌++◌, map, OnOk};
ghost use Rattle.std.specs.List.{flat_map};
ghost use Rattle.vital_limits.specs.WithinLimits.{limits_within, limits_within_all};
ghost use Rattle.vital_nodes.specs.Nodes.{Expression, Item as Item', Name, expressions, items, parts_of_expr, parts_of_item, parts_of_range, parts_of_suffix};

use crate::node_limits::put_of_expression;
use crate::passed::PassedLimit;
use std::alloc::AllocError;
use vital_nodes::{
    Actual, Adding, Choice, Expr, Item, Multiplying, Range, Reference, Suffix, walked_in_preorder,
};

/// Puts the limits of an expression and of all that it holds at the end.
#[cycle(within)]
pub fn put_within_expr(limits: &mut Vec<PassedLimit>, expr: &Expr) -> Result<(), AllocError>
    ensures { OnOk result (limits.new.items ≡ limits.old.items ++ limits_within (Expression expr.now)) }
{
    walked_in_preorder();
    put_of_expression(limits, expr)?;
    put_in_expr(limits, expr)
}

/// Puts the limits of the parts of an expression at the end.
#[cycle(within)]
fn put_in_expr(limits: &mut Vec<PassedLimit>, expr: &Expr) -> Result<(), AllocError>
    ensures { OnOk result (limits.new.items ≡ limits.old.items ++ limits_within_all (parts_of_expr expr.now)) }
{
    match expr {
        Expr::Logical(_, _, operands) => put_within_exprs(limits, operands.as_slice()),
        Expr::Relation(relation) => {
            let relation = relation.get();
            put_within_expr(limits, &relation.left)?;
            put_within_expr(limits, &relation.right)
        }
        Expr::Sum(sum) => {
            let sum = sum.get();
            put_within_expr(limits, &sum.first)?;
            put_within_terms(limits, sum.others.as_slice())
        }
        Expr::Product(product) => {
            let product = product.get();
            put_within_expr(limits, &product.first)?;
            put_within_factors(limits, product.others.as_slice())
        }
        Expr::Not(_, operand) => put_within_expr(limits, operand.get()),
        Expr::Reference(name) => put_within_name(limits, name),
        Expr::Parenthesized(_, items) => put_within_items(limits, items.as_slice()),
        Expr::Number(_, _)
        | Expr::Physical(_)
        | Expr::Character(_, _)
        | Expr::StringLiteral(_, _) => Ok(()),
    }
}

/// Puts the limits of expressions and of all that they hold at the end.
#[cycle(within)]
fn put_within_exprs(limits: &mut Vec<PassedLimit>, exprs: &[Expr]) -> Result<(), AllocError>
    ensures { OnOk result (limits.new.items ≡ limits.old.items ++ limits_within_all (expressions exprs.now)) }
{
    for expr in exprs {
        put_within_expr(limits, expr)?;
    }
    Ok(())
}

/// Puts the limits of the terms behind the operators of a sum at the end.
#[cycle(within)]
fn put_within_terms(
    limits: &mut Vec<PassedLimit>,
    terms: &[(Adding, Expr)],
) -> Result<(), AllocError>
    ensures { OnOk result (limits.new.items ≡ limits.old.items ++ limits_within_all (map (λ term. Expression term.1) terms.now)) }
{
    for (_, term) in terms {
        put_within_expr(limits, term)?;
    }
    Ok(())
}

/// Puts the limits of the factors behind the operators of a product at the end.
#[cycle(within)]
fn put_within_factors(
    limits: &mut Vec<PassedLimit>,
    factors: &[(Multiplying, Expr)],
) -> Result<(), AllocError>
    ensures { OnOk result (limits.new.items ≡ limits.old.items ++ limits_within_all (map (λ factor. Expression factor.1) factors.now)) }
{
    for (_, factor) in factors {
        put_within_expr(limits, factor)?;
    }
    Ok(())
}

/// Puts the limits of the bounds of a range at the end.
#[cycle(within)]
pub fn put_within_range(limits: &mut Vec<PassedLimit>, range: &Range) -> Result<(), AllocError>
    ensures { OnOk result (limits.new.items ≡ limits.old.items ++ limits_within_all (parts_of_range range.now)) }
{
    put_within_expr(limits, &range.left)?;
    put_within_expr(limits, &range.right)
}

/// Puts the limits of items and of all that they hold at the end.
#[cycle(within)]
pub fn put_within_items(limits: &mut Vec<PassedLimit>, list: &[Item]) -> Result<(), AllocError>
    ensures { OnOk result (limits.new.items ≡ limits.old.items ++ limits_within_all (items list.now)) }
{
    for item in list {
        put_within_item(limits, item)?;
    }
    Ok(())
}

/// Puts the limits of an item and of all that it holds at the end. It passes none itself.
#[cycle(within)]
fn put_within_item(limits: &mut Vec<PassedLimit>, item: &Item) -> Result<(), AllocError>
    ensures { OnOk result (limits.new.items ≡ limits.old.items ++ limits_within (Item' item.now)) }
{
    walked_in_preorder();
    put_in_item(limits, item)
}

/// Puts the limits of the parts of an item at the end.
#[cycle(within)]
fn put_in_item(limits: &mut Vec<PassedLimit>, item: &Item) -> Result<(), AllocError>
    ensures { OnOk result (limits.new.items ≡ limits.old.items ++ limits_within_all (parts_of_item item.now)) }
{
    match item {
        Item::Others(_, value) => put_within_expr(limits, value.get()),
        Item::Open(_) => Ok(()),
        Item::Positional(choice) => match choice {
            Choice::Value(value) => put_within_expr(limits, value),
            Choice::Range(range) => put_within_range(limits, range.get()),
        },
        Item::Named(association) => match &association.get().actual {
            Actual::Value(value) => put_within_expr(limits, value),
            Actual::Open(_) => Ok(()),
        },
    }
}

/// Puts the limits of a name and of all that it holds at the end. It passes none itself.
#[cycle(within)]
pub fn put_within_name(limits: &mut Vec<PassedLimit>, name: &Reference) -> Result<(), AllocError>
    ensures { OnOk result (limits.new.items ≡ limits.old.items ++ limits_within (Name name.now)) }
{
    walked_in_preorder();
    put_in_suffixes(limits, name.suffixes.as_slice())
}

/// Puts the limits of the parts of suffixes at the end.
#[cycle(within)]
fn put_in_suffixes(limits: &mut Vec<PassedLimit>, suffixes: &[Suffix]) -> Result<(), AllocError>
    ensures { OnOk result (limits.new.items ≡ limits.old.items ++ limits_within_all (flat_map parts_of_suffix suffixes.now)) }
{
    for suffix in suffixes {
        put_in_suffix(limits, suffix)?;
    }
    Ok(())
}

/// Puts the limits of the parts of a suffix at the end.
#[cycle(within)]
fn put_in_suffix(limits: &mut Vec<PassedLimit>, suffix: &Suffix) -> Result<(), AllocError>
    ensures { OnOk result (limits.new.items ≡ limits.old.items ++ limits_within_all (parts_of_suffix suffix.now)) }
{
    match suffix {
        Suffix::Qualified(items) | Suffix::Items(items) => {
            put_within_items(limits, items.as_slice())
        }
        Suffix::Selected(_) | Suffix::All(_) | Suffix::Attribute(_) => Ok(()),
    }
}
