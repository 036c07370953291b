//! All nodes of a unit, and of a node.

ghost use Rattle.std.specs.Prelude.{◌≡◌, ◌++◌, map, reverse, IfOk, OnOk};
ghost use Rattle.vital_nodes.specs.Nodes.{parts_of};
ghost use Rattle.vital_nodes.specs.Walk.{nodes_of, nodes_of_all, nodes_of_unit};
ghost use Rattle.vital_nodes.specs.Seen.{seen};

use crate::laws::walked_in_preorder;
use crate::node::Node;
use crate::put::reverse_from;
use crate::unit::Unit;
use crate::unit_parts::{put_parts, put_parts_of_unit};
use std::alloc::{AllocError, Global};

/// Puts the parts of a node at the end, the last of them first.
fn put_parts_reversed<'a>(waiting: &mut Vec<Node<'a>>, node: Node<'a>) -> Result<(), AllocError>
    ensures { OnOk result (map seen waiting.new.items ≡ map seen waiting.old.items ++ reverse (parts_of (seen node.entry))) }
{
    let first = waiting.len();
    put_parts(waiting, node)?;
    reverse_from(waiting, first);
    Ok(())
}

/// The nodes of nodes that stand one behind another, in preorder.
pub fn nodes_of_all<'a>(alloc: Global, parts: Vec<Node<'a>>) -> Result<Vec<Node<'a>>, AllocError>
    ensures { IfOk result (λ nodes. map seen nodes.items ≡ nodes_of_all (map seen parts.entry.items)) }
{
    walked_in_preorder();
    // Those that are still to come, the next one last.
    let mut waiting = parts;
    waiting.reverse();
    let mut nodes = Vec::new(alloc);
    while let Some(node) = waiting.pop() {
        nodes.push(node)?;
        put_parts_reversed(&mut waiting, node)?;
    }
    Ok(nodes)
}

/// All nodes of a unit in preorder: a node stands before what it holds, and what it holds in the order of the text. What
/// identifiers that are declared together share is there once, behind the last of them.
pub fn nodes<'a>(alloc: Global, unit: &'a Unit) -> Result<Vec<Node<'a>>, AllocError>
    ensures { IfOk result (λ nodes. map seen nodes.items ≡ nodes_of_unit unit.now) }
{
    let mut parts = Vec::new(alloc);
    put_parts_of_unit(&mut parts, unit)?;
    nodes_of_all(alloc, parts)
}

/// A node and all that it holds, in preorder.
pub fn nodes_of<'a>(alloc: Global, node: Node<'a>) -> Result<Vec<Node<'a>>, AllocError>
    ensures { IfOk result (λ nodes. map seen nodes.items ≡ nodes_of (seen node.entry)) }
{
    let mut parts = Vec::new(alloc);
    parts.push(node)?;
    nodes_of_all(alloc, parts)
}
