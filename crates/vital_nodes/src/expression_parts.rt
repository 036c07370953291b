//! The parts of expressions, items and names.

ghost use Rattle.std.specs.Prelude.{◌≡◌, ◌++◌, map, OnOk};
ghost use Rattle.vital_nodes.specs.Nodes.{parts_of_expr, parts_of_item, parts_of_name, parts_of_range, parts_of_suffix};
ghost use Rattle.vital_nodes.specs.Seen.{seen};

use crate::expr::{Actual, Choice, Expr, Item, Range, Reference, Suffix};
use crate::node::Node;
use crate::put::{put, put_all, put_operands};
use std::alloc::AllocError;

/// Puts the parts of an expression at the end.
pub fn put_parts_of_expr<'a>(nodes: &mut Vec<Node<'a>>, expr: &'a Expr) -> Result<(), AllocError>
    ensures { OnOk result (map seen nodes.new.items ≡ map seen nodes.old.items ++ parts_of_expr expr.now) }
{
    match expr {
        Expr::Logical(_, _, operands) => put_all(nodes, operands.as_slice()),
        Expr::Relation(relation) => {
            let relation = relation.get();
            put(nodes, &relation.left)?;
            put(nodes, &relation.right)
        }
        Expr::Sum(sum) => {
            let sum = sum.get();
            put(nodes, &sum.first)?;
            put_operands(nodes, sum.others.as_slice())
        }
        Expr::Product(product) => {
            let product = product.get();
            put(nodes, &product.first)?;
            put_operands(nodes, product.others.as_slice())
        }
        Expr::Not(_, operand) => put(nodes, operand.get()),
        Expr::Reference(name) => put(nodes, name),
        Expr::Parenthesized(_, items) => put_all(nodes, items.as_slice()),
        Expr::Number(_, _)
        | Expr::Physical(_)
        | Expr::Character(_, _)
        | Expr::StringLiteral(_, _) => Ok(()),
    }
}

/// Puts the bounds of a range at the end.
pub fn put_parts_of_range<'a>(nodes: &mut Vec<Node<'a>>, range: &'a Range) -> Result<(), AllocError>
    ensures { OnOk result (map seen nodes.new.items ≡ map seen nodes.old.items ++ parts_of_range range.now) }
{
    put(nodes, &range.left)?;
    put(nodes, &range.right)
}

/// Puts the parts of an item at the end.
pub fn put_parts_of_item<'a>(nodes: &mut Vec<Node<'a>>, item: &'a Item) -> Result<(), AllocError>
    ensures { OnOk result (map seen nodes.new.items ≡ map seen nodes.old.items ++ parts_of_item item.now) }
{
    match item {
        Item::Others(_, value) => put(nodes, value.get()),
        Item::Open(_) => Ok(()),
        Item::Positional(choice) => match choice {
            Choice::Value(value) => put(nodes, value),
            Choice::Range(range) => put_parts_of_range(nodes, range.get()),
        },
        Item::Named(association) => match &association.get().actual {
            Actual::Value(value) => put(nodes, value),
            Actual::Open(_) => Ok(()),
        },
    }
}

/// Puts the items of a suffix at the end.
fn put_parts_of_suffix<'a>(nodes: &mut Vec<Node<'a>>, suffix: &'a Suffix) -> Result<(), AllocError>
    ensures { OnOk result (map seen nodes.new.items ≡ map seen nodes.old.items ++ parts_of_suffix suffix.now) }
{
    match suffix {
        Suffix::Qualified(items) | Suffix::Items(items) => put_all(nodes, items.as_slice()),
        Suffix::Selected(_) | Suffix::All(_) | Suffix::Attribute(_) => Ok(()),
    }
}

/// Puts the parts of a name at the end.
pub fn put_parts_of_name<'a>(
    nodes: &mut Vec<Node<'a>>,
    name: &'a Reference,
) -> Result<(), AllocError>
    ensures { OnOk result (map seen nodes.new.items ≡ map seen nodes.old.items ++ parts_of_name name.now) }
{
    for suffix in name.suffixes.as_slice() {
        put_parts_of_suffix(nodes, suffix)?;
    }
    Ok(())
}
