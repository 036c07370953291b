//! The identifiers of which it is asked what they mean.

ghost use Rattle.std.specs.Prelude.{◌≡◌, [], ◌++◌, map, IfOk, OnOk};
ghost use Rattle.std.specs.List.{cons_option};
ghost use Rattle.std.specs.Option.{option_copied, option_map};
ghost use Rattle.vital_nodes.specs.Seen.{seen};
ghost use Rattle.vital_uses.specs.Asked.{asked, asked_at, identifier_of_node, lent_asked, unit_of};
ghost use Rattle.vital_uses.specs.Sited.{lent_node};

use crate::sited::SitedNode;
use std::alloc::{AllocError, Global};
use vital_names::{CellNames, Meaning};
use vital_nodes::{Expr, Identifier, Node};

/// An identifier, and what it means where it stands, if it means anything.
#[derive(Clone, Copy)]
pub struct Asked<'a> {
    pub identifier: &'a Identifier,
    pub meaning: Option<Meaning<'a>>,
}

/// The identifier of a node of which it is asked what it means: the first of a name, and the unit behind a number.
pub fn identifier_of_node<'a>(node: Node<'a>) -> Option<&'a Identifier>
    ensures { option_copied result ≡ identifier_of_node (seen node.entry) }
{
    match node {
        Node::Name(name) => Some(&name.identifier),
        Node::Expression(expr) => unit_of(expr),
        _ => None,
    }
}

/// The unit of an expression that is a number and its unit.
fn unit_of(expr: &Expr) -> Option<&Identifier>
    ensures { option_copied result ≡ unit_of expr.now }
{
    match expr {
        Expr::Physical(physical) => Some(&physical.get().unit),
        _ => None,
    }
}

/// What is asked at a node, if anything is.
#[tactic(auto, unfolding(crate::specs::Asked::asked_at))]
fn asked_at<'a>(names: &CellNames<'a>, node: &SitedNode<'a>) -> Option<Asked<'a>>
    ensures { option_map lent_asked result ≡ asked_at names.now (lent_node node.now) }
{
    match identifier_of_node(node.node) {
        Some(identifier) => Some(Asked {
            identifier,
            meaning: names.meaning(identifier.name.as_slice(), &node.site),
        }),
        None => None,
    }
}

/// Puts what is asked at the end if something is.
fn put_asked<'a>(all: &mut Vec<Asked<'a>>, asked: Option<Asked<'a>>) -> Result<(), AllocError>
    ensures { OnOk result (map lent_asked all.new.items ≡ map lent_asked all.old.items ++ cons_option (option_map lent_asked asked.entry) []) }
{
    if let Some(asked) = asked {
        all.push(asked)?;
    }
    Ok(())
}

/// Puts what is asked at nodes at the end, in order. Each name is looked up once.
fn put_asked_at<'a>(
    all: &mut Vec<Asked<'a>>,
    names: &CellNames<'a>,
    nodes: &[SitedNode<'a>],
) -> Result<(), AllocError>
    ensures { OnOk result (map lent_asked all.new.items ≡ map lent_asked all.old.items ++ asked names.now (map lent_node nodes.now)) }
{
    for node in nodes {
        put_asked(all, asked_at(names, node))?;
    }
    Ok(())
}

/// What is asked at nodes, in order.
pub fn asked_at_nodes<'a>(
    alloc: Global,
    names: &CellNames<'a>,
    nodes: &[SitedNode<'a>],
) -> Result<Vec<Asked<'a>>, AllocError>
    ensures { IfOk result (λ all. map lent_asked all.items ≡ asked names.now (map lent_node nodes.now)) }
{
    let mut all = Vec::new(alloc);
    put_asked_at(&mut all, names, nodes)?;
    Ok(all)
}

/// What is asked at nodes, and then at others, in order.
pub fn asked_at_both<'a>(
    alloc: Global,
    names: &CellNames<'a>,
    nodes: &[SitedNode<'a>],
    others: &[SitedNode<'a>],
) -> Result<Vec<Asked<'a>>, AllocError>
    ensures { IfOk result (λ all. map lent_asked all.items ≡ asked names.now (map lent_node nodes.now ++ map lent_node others.now)) }
{
    let mut all = Vec::new(alloc);
    put_asked_at(&mut all, names, nodes)?;
    put_asked_at(&mut all, names, others)?;
    Ok(all)
}
