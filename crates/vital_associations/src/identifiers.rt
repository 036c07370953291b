//! The identifiers in values and ranges.

ghost use Rattle.std.specs.Prelude.{◌≡◌, [], ◌∷◌, ◌++◌, map, IfOk, OnOk};
ghost use Rattle.std.specs.List.{filter_map, flat_map};
ghost use Rattle.std.specs.Option.{option_copied};
ghost use Rattle.vital_associations.specs.Identifiers as spec;
ghost use Rattle.vital_nodes.specs.Walk.{nodes_of_all};
ghost use Rattle.vital_nodes.specs.Seen.{seen};

use std::alloc::{AllocError, Global};
use vital_nodes::{Choice, Expr, Identifier, Item, Node, Suffix, formal, nodes_of_all};

/// How many parentheses may be open in a text.
const MOST_NESTED: usize = 64;

/// The identifier of a suffix behind a dot or a tick.
fn identifier_of_suffix(suffix: &Suffix) -> Option<&Identifier>
    ensures { option_copied result ≡ spec.identifier_of_suffix suffix.now }
{
    match suffix {
        Suffix::Selected(identifier) | Suffix::Attribute(identifier) => Some(identifier),
        Suffix::All(_) | Suffix::Qualified(_) | Suffix::Items(_) => None,
    }
}

/// Puts the identifier of a suffix at the end, if it has one.
fn put_identifier_of_suffix<'a>(
    found: &mut Vec<&'a Identifier>,
    suffix: &'a Suffix,
) -> Result<(), AllocError>
    ensures { OnOk result (map (λ i. i.now) found.new.items ≡ map (λ i. i.now) found.old.items ++ filter_map spec.identifier_of_suffix (suffix.now ∷ [])) }
{
    if let Some(identifier) = identifier_of_suffix(suffix) {
        found.push(identifier)?;
    }
    Ok(())
}

/// Puts the identifiers of suffixes at the end.
fn put_identifiers_of_suffixes<'a>(
    found: &mut Vec<&'a Identifier>,
    suffixes: &'a [Suffix],
) -> Result<(), AllocError>
    ensures { OnOk result (map (λ i. i.now) found.new.items ≡ map (λ i. i.now) found.old.items ++ filter_map spec.identifier_of_suffix suffixes.now) }
{
    for suffix in suffixes {
        put_identifier_of_suffix(found, suffix)?;
    }
    Ok(())
}

/// Puts the unit of a number at the end, if an expression is one with a unit.
fn put_unit<'a>(found: &mut Vec<&'a Identifier>, expr: &'a Expr) -> Result<(), AllocError>
    ensures { OnOk result (map (λ i. i.now) found.new.items ≡ map (λ i. i.now) found.old.items ++ spec.unit_of expr.now) }
{
    if let Expr::Physical(physical) = expr {
        found.push(&physical.get().unit)?;
    }
    Ok(())
}

/// Puts the identifiers of a node at the end.
fn put_identifiers<'a>(found: &mut Vec<&'a Identifier>, node: Node<'a>) -> Result<(), AllocError>
    ensures { OnOk result (map (λ i. i.now) found.new.items ≡ map (λ i. i.now) found.old.items ++ spec.identifiers_of_node (seen node.entry)) }
{
    match node {
        Node::Name(name) => {
            found.push(&name.identifier)?;
            put_identifiers_of_suffixes(found, name.suffixes.as_slice())
        }
        Node::Expression(expr) => put_unit(found, expr),
        _ => Ok(()),
    }
}

/// Puts the identifiers of nodes at the end.
fn put_identifiers_of_all<'a>(
    found: &mut Vec<&'a Identifier>,
    nodes: &[Node<'a>],
) -> Result<(), AllocError>
    ensures { OnOk result (map (λ i. i.now) found.new.items ≡ map (λ i. i.now) found.old.items ++ flat_map spec.identifiers_of_node (map seen nodes.now)) }
{
    for node in nodes {
        put_identifiers(found, *node)?;
    }
    Ok(())
}

/// Puts a value or the bounds of a range at the end, as nodes.
fn put_parts_of_choice<'a>(parts: &mut Vec<Node<'a>>, choice: &'a Choice) -> Result<(), AllocError>
    ensures { OnOk result (map seen parts.new.items ≡ map seen parts.old.items ++ spec.parts_of_choice choice.now) }
{
    match choice {
        Choice::Value(value) => parts.push(Node::Expression(value))?,
        Choice::Range(range) => {
            let range = range.get();
            parts.push(Node::Expression(&range.left))?;
            parts.push(Node::Expression(&range.right))?;
        }
    }
    Ok(())
}

/// Puts what stands before `=>` in an item at the end.
fn put_parts_of_formal<'a>(parts: &mut Vec<Node<'a>>, item: &'a Item) -> Result<(), AllocError>
    ensures { OnOk result (map seen parts.new.items ≡ map seen parts.old.items ++ spec.parts_of_formal item.now) }
{
    match formal(item) {
        Some(choice) => put_parts_of_choice(parts, choice),
        None => Ok(()),
    }
}

/// Puts what stands before `=>` in a node at the end, if it is an item.
fn put_formal_parts<'a>(parts: &mut Vec<Node<'a>>, node: Node<'a>) -> Result<(), AllocError>
    ensures { OnOk result (map seen parts.new.items ≡ map seen parts.old.items ++ spec.formal_parts (seen node.entry)) }
{
    match node {
        Node::Item(item) => put_parts_of_formal(parts, item),
        _ => Ok(()),
    }
}

/// What stands before `=>` in nodes that are items.
fn formal_parts_of_all<'a>(alloc: Global, nodes: &[Node<'a>]) -> Result<Vec<Node<'a>>, AllocError>
    ensures { IfOk result (λ parts. map seen parts.items ≡ flat_map spec.formal_parts (map seen nodes.now)) }
{
    let mut parts = Vec::new(alloc);
    for node in nodes {
        put_formal_parts(&mut parts, *node)?;
    }
    Ok(parts)
}

/// Puts the identifiers in nodes with all that they hold at the end. What stands before `=>` there is still to come.
fn put_level<'a>(
    alloc: Global,
    found: &mut Vec<&'a Identifier>,
    parts: Vec<Node<'a>>,
) -> Result<Vec<Node<'a>>, AllocError>
    ensures found { OnOk result (map (λ i. i.now) found.new.items ≡ map (λ i. i.now) found.old.items ++ flat_map spec.identifiers_of_node (nodes_of_all (map seen parts.entry.items))) }
    ensures next { IfOk result (λ next. map seen next.items ≡ flat_map spec.formal_parts (nodes_of_all (map seen parts.entry.items))) }
{
    let nodes = nodes_of_all(alloc, parts)?;
    put_identifiers_of_all(found, &nodes)?;
    formal_parts_of_all(alloc, &nodes)
}

/// The identifiers in nodes with all that they hold, and then those in what stands before `=>` there, level by level.
fn identifiers_in<'a>(
    alloc: Global,
    parts: Vec<Node<'a>>,
) -> Result<Vec<&'a Identifier>, AllocError>
    ensures { IfOk result (λ found. map (λ i. i.now) found.items ≡ spec.identifiers_in (map seen parts.entry.items)) }
{
    let mut found = Vec::new(alloc);
    let mut level = parts;
    for _ in 0..MOST_NESTED {
        level = put_level(alloc, &mut found, level)?;
    }
    Ok(found)
}

/// The identifiers in a value or in a range.
pub fn identifiers_of_choice<'a>(
    alloc: Global,
    choice: &'a Choice,
) -> Result<Vec<&'a Identifier>, AllocError>
    ensures { IfOk result (λ found. map (λ i. i.now) found.items ≡ spec.identifiers_of_choice choice.now) }
{
    let mut parts = Vec::new(alloc);
    put_parts_of_choice(&mut parts, choice)?;
    identifiers_in(alloc, parts)
}

/// The identifiers in an expression.
pub fn identifiers_of_expr<'a>(
    alloc: Global,
    expr: &'a Expr,
) -> Result<Vec<&'a Identifier>, AllocError>
    ensures { IfOk result (λ found. map (λ i. i.now) found.items ≡ spec.identifiers_of_expr expr.now) }
{
    let mut parts = Vec::new(alloc);
    parts.push(Node::Expression(expr))?;
    identifiers_in(alloc, parts)
}
