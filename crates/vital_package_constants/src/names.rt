//! The names in the declaration of a constant of a package.

ghost use Rattle.std.specs.Prelude.{◌≡◌, map, IfOk, OnOk};
ghost use Rattle.vital_package_constants.specs.Names as spec;
ghost use Rattle.vital_nodes.specs.Seen.{seen};

use std::alloc::{AllocError, Global};
use vital_call_clauses::is_wrong_for;
use vital_names::{Function, LibraryNames};
use vital_nodes::{Node, Object, Reference, nodes_of_all, put_if_there};
use vital_uses::{identifier_of_node, put_asked_of_subtype};

/// The nodes of what a constant is declared with, in which it is asked what names mean.
pub fn nodes_of_constant(alloc: Global, object: &Object) -> Result<Vec<Node<'_>>, AllocError>
    ensures { IfOk result (λ nodes. map seen nodes.items ≡ spec.nodes_of_constant object.now) }
{
    let mut parts = Vec::new(alloc);
    let declared = object.parts.get();
    put_asked_of_subtype(&mut parts, &declared.subtype)?;
    put_if_there(&mut parts, &declared.value)?;
    nodes_of_all(alloc, parts)
}

/// Whether a name at a node is neither declared before the constant of a number nor predeclared.
pub fn is_undeclared(library: &LibraryNames<'_>, number: usize, node: Node<'_>) -> bool
    ensures { result ≡ spec.is_undeclared library.now number (seen node.entry) }
{
    match identifier_of_node(node) {
        Some(identifier) => {
            library
                .meaning_in_value(identifier.name.as_slice(), number)
                .is_none()
        }
        None => false,
    }
}

/// The predeclared function that a name means in the declaration of the constant of a number.
fn function_at(library: &LibraryNames<'_>, number: usize, name: &Reference) -> Option<Function>
    ensures { result ≡ spec.function_at library.now number name.now }
{
    match library.meaning_in_value(name.identifier.name.as_slice(), number) {
        Some(meaning) => meaning.function(),
        None => None,
    }
}

/// Whether a name is a call of a function with items that are wrong for it.
fn is_wrong_name(library: &LibraryNames<'_>, number: usize, name: &Reference) -> bool
    ensures { result ≡ spec.is_wrong_name library.now number name.now }
{
    match function_at(library, number, name) {
        Some(function) => is_wrong_for(name, function),
        None => false,
    }
}

/// Whether the name at a node is such a call.
pub fn is_wrong_call(library: &LibraryNames<'_>, number: usize, node: Node<'_>) -> bool
    ensures { result ≡ spec.is_wrong_call library.now number (seen node.entry) }
{
    match node {
        Node::Name(name) => is_wrong_name(library, number, name),
        _ => false,
    }
}
