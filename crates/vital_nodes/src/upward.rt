//! What is made of nodes from their parts upwards.

ghost use Rattle.std.specs.Prelude.{◌≡◌, ◌-◌, List, [], ◌∷◌, ◌++◌, length, take, drop, reverse, IfOk, OnOk};
ghost use Rattle.vital_nodes.specs.Nodes.{Node as Node'};
ghost use Rattle.vital_nodes.specs.Walk.{folded};
ghost use Rattle.vital_nodes.specs.Seen.{seen};

use crate::laws::{folded_upwards, walked_in_preorder};
use crate::node::Node;
use crate::put::reverse_from;
use crate::unit_parts::put_parts;
use crate::walk::nodes_of;
use std::alloc::{AllocError, Global};

/// A rule that makes the value of a node of the node and of the values of its parts.
pub trait UpwardRule<'a> {
    /// What a node is worth by the rule, such as a count or the first breach in it.
    type Value: Drop;

    ghost step: { Self → Node' → List Self.Value → Self.Value };

    /// The value of a node whose parts have these values, in their order.
    fn value(&self, node: Node<'a>, parts: &[Self::Value]) -> Result<Self::Value, AllocError>
        ensures { IfOk result (λ value. value ≡ step self.now (seen node.entry) parts.now) };
}

/// Puts the value of a node at the end, in place of those of its parts. As many as it has parts stand there, the first last.
fn put_value<'a, U: UpwardRule<'a>>(
    values: &mut Vec<U::Value>,
    rule: &U,
    node: Node<'a>,
    parts: usize,
) -> Result<(), AllocError>
    ensures { OnOk result (values.new.items ≡ take (length values.old.items - parts) values.old.items ++ U.step rule.now (seen node.entry) (reverse (drop (length values.old.items - parts) values.old.items)) ∷ []) }
{
    let first = values.len().saturating_sub(parts);
    reverse_from(values, first);
    let value = rule.value(node, &values.as_slice()[first..])?;
    values.truncate(first);
    values.push(value)?;
    Ok(())
}

/// The value of a node by a rule, made from its parts upwards. Each node in it is asked for its value once.
pub fn fold_up<'a, U: UpwardRule<'a>>(
    alloc: Global,
    node: Node<'a>,
    rule: &U,
) -> Result<U::Value, AllocError>
    ensures { IfOk result (λ value. value ≡ folded (U.step rule.now) (seen node.entry)) }
{
    walked_in_preorder();
    folded_upwards::<U::Value>();
    let mut nodes = nodes_of(alloc, node)?;
    let mut parts = Vec::new(alloc);
    // Those of the nodes that were gone over and are no parts of one another, the first last.
    let mut values = Vec::new(alloc);
    while let Some(node) = nodes.pop() {
        put_parts(&mut parts, node)?;
        put_value(&mut values, rule, node, parts.len())?;
        parts.clear();
    }
    match values.pop() {
        Some(value) => Ok(value),
        None => unreachable!(),
    }
}
