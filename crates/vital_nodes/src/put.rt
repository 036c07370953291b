//! Lists of nodes that grow at their end.

ghost use Rattle.std.specs.Prelude.{◌≡◌, ◌≤◌, ◌∷◌, [], ◌++◌, vec_len, take, drop, reverse, map, OnOk};
ghost use Rattle.vital_nodes.specs.Nodes.{Expression, expression_if_there};
ghost use Rattle.vital_nodes.specs.Seen.{seen};

use crate::expr::Expr;
use crate::node::{Node, OneKind};
use std::alloc::AllocError;

/// Puts one node at the end.
pub fn put<'a, T: OneKind>(nodes: &mut Vec<Node<'a>>, one: &'a T) -> Result<(), AllocError>
    ensures { OnOk result (map seen nodes.new.items ≡ map seen nodes.old.items ++ T.node_of one.now ∷ []) }
{
    nodes.push(one.as_node())?;
    Ok(())
}

/// Puts nodes of one kind at the end, in order.
pub fn put_all<'a, T: OneKind>(nodes: &mut Vec<Node<'a>>, all: &'a [T]) -> Result<(), AllocError>
    ensures { OnOk result (map seen nodes.new.items ≡ map seen nodes.old.items ++ map T.node_of all.now) }
{
    for one in all {
        nodes.push(one.as_node())?;
    }
    Ok(())
}

/// Puts the expressions that stand after operators at the end, in order.
pub fn put_operands<'a, O>(
    nodes: &mut Vec<Node<'a>>,
    operands: &'a [(O, Expr)],
) -> Result<(), AllocError>
    ensures { OnOk result (map seen nodes.new.items ≡ map seen nodes.old.items ++ map (λ operand. Expression operand.1) operands.now) }
{
    for (_, operand) in operands {
        nodes.push(Node::Expression(operand))?;
    }
    Ok(())
}

/// Puts an expression at the end if it is there.
pub fn put_if_there<'a>(nodes: &mut Vec<Node<'a>>, expr: &'a Option<Expr>) -> Result<(), AllocError>
    ensures { OnOk result (map seen nodes.new.items ≡ map seen nodes.old.items ++ expression_if_there expr.now) }
{
    if let Some(expr) = expr {
        nodes.push(Node::Expression(expr))?;
    }
    Ok(())
}

/// Reverses the items from a number on.
pub fn reverse_from<T>(items: &mut Vec<T>, first: usize)
    requires { first ≤ vec_len items.old }
    ensures { items.new.items ≡ take first items.old.items ++ reverse (drop first items.old.items) }
{
    items[first..].reverse();
}
