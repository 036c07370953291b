//! The parts of declarations, generics and ports.

ghost use Rattle.std.specs.Prelude.{◌≡◌, ◌++◌, map, OnOk};
ghost use Rattle.vital_nodes.specs.Nodes.{expression_if_there, parts_of_alias, parts_of_decl, parts_of_iface, parts_of_object, parts_of_subtype};
ghost use Rattle.vital_nodes.specs.Seen.{seen};

use crate::decl::{Alias, Decl, Iface, Object, Subtype};
use crate::expression_parts::put_parts_of_range;
use crate::node::Node;
use crate::put::{put, put_all, put_if_there};
use std::alloc::AllocError;

/// Puts the parts of a subtype at the end.
fn put_parts_of_subtype<'a>(
    nodes: &mut Vec<Node<'a>>,
    subtype: &'a Subtype,
) -> Result<(), AllocError>
    ensures { OnOk result (map seen nodes.new.items ≡ map seen nodes.old.items ++ parts_of_subtype subtype.now) }
{
    put(nodes, &subtype.name)?;
    match &subtype.range {
        Some(range) => put_parts_of_range(nodes, range),
        None => Ok(()),
    }
}

/// Puts the parts of a generic or a port at the end.
pub fn put_parts_of_iface<'a>(nodes: &mut Vec<Node<'a>>, iface: &'a Iface) -> Result<(), AllocError>
    ensures { OnOk result (map seen nodes.new.items ≡ map seen nodes.old.items ++ parts_of_iface iface.now) }
{
    if !iface.is_last {
        return Ok(());
    }
    let parts = iface.parts.get();
    put_parts_of_subtype(nodes, &parts.subtype)?;
    put_if_there(nodes, &parts.default)
}

/// Puts the parts of an object at the end.
fn put_parts_of_object<'a>(nodes: &mut Vec<Node<'a>>, object: &'a Object) -> Result<(), AllocError>
    ensures { OnOk result (map seen nodes.new.items ≡ map seen nodes.old.items ++ parts_of_object object.now) }
{
    if !object.is_last {
        return Ok(());
    }
    put_shared_parts(nodes, object)
}

/// Puts what an object shares with those that are declared together with it at the end: the parts of its subtype, and its value.
pub fn put_shared_parts<'a>(nodes: &mut Vec<Node<'a>>, object: &'a Object) -> Result<(), AllocError>
    ensures { OnOk result (map seen nodes.new.items ≡ map seen nodes.old.items ++ parts_of_subtype object.now.parts.subtype ++ expression_if_there object.now.parts.value) }
{
    let parts = object.parts.get();
    put_parts_of_subtype(nodes, &parts.subtype)?;
    put_if_there(nodes, &parts.value)
}

/// Puts the parts of an alias at the end.
fn put_parts_of_alias<'a>(nodes: &mut Vec<Node<'a>>, alias: &'a Alias) -> Result<(), AllocError>
    ensures { OnOk result (map seen nodes.new.items ≡ map seen nodes.old.items ++ parts_of_alias alias.now) }
{
    if let Some(subtype) = &alias.subtype {
        put_parts_of_subtype(nodes, subtype)?;
    }
    put(nodes, &alias.target)
}

/// Puts the parts of a declaration at the end.
pub fn put_parts_of_decl<'a>(nodes: &mut Vec<Node<'a>>, decl: &'a Decl) -> Result<(), AllocError>
    ensures { OnOk result (map seen nodes.new.items ≡ map seen nodes.old.items ++ parts_of_decl decl.now) }
{
    match decl {
        Decl::Attribute(_, name) => put(nodes, name),
        Decl::Specification(specification) => put(nodes, &specification.value),
        Decl::Object(object) => put_parts_of_object(nodes, object),
        Decl::Alias(alias) => put_parts_of_alias(nodes, alias),
        Decl::Component(component) => {
            put_all(nodes, component.generics.as_slice())?;
            put_all(nodes, component.ports.as_slice())
        }
    }
}
