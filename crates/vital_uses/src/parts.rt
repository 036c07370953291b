//! The parts of declarations by what is asked of the names in them.

ghost use Rattle.std.specs.Prelude.{◌≡◌, List, ◌++◌, map, OnOk};
ghost use Rattle.std.specs.Option.{option_copied};
ghost use Rattle.vital_nodes.specs.Nodes.{Node as Node'};
ghost use Rattle.vital_nodes.specs.Seen.{seen};
ghost use Rattle.vital_uses.specs.Parts.{apart_of_decl, apart_of_specification, asked_of_alias, asked_of_decl, asked_of_default, asked_of_generic, asked_of_object, asked_of_port, asked_of_subtype, is_level_attribute, type_of_decl, type_of_iface, value_of_decl};

use std::alloc::AllocError;
use vital_level0::{default_word, is_true};
use vital_nodes::{
    Alias, Decl, Iface, Node, Object, Reference, Specification, Subtype, put_if_there, put_parts,
};

/// A choice of parts of declarations.
pub trait PartsOf<T> {
    ghost parts_are: { T → List Node' };

    /// Puts the parts of a declaration at the end.
    fn put<'a>(&self, nodes: &mut Vec<Node<'a>>, declaration: &'a T) -> Result<(), AllocError>
        ensures { OnOk result (map seen nodes.new.items ≡ map seen nodes.old.items ++ parts_are declaration.now) };
}

/// The parts in which it is asked what names mean: all but the names of types, and nothing of attributes and components.
pub struct AskedParts;

/// The same of generics: defaults that are words of their types are left out.
pub struct GenericParts;

/// The parts of attributes and components: all but the TRUE by which a cell says what its level is.
pub struct ApartParts;

/// The values of constants, signals and variables.
pub struct ValueParts;

impl PartsOf<Iface> for GenericParts {
    ghost parts_are = { asked_of_generic };

    fn put<'a>(&self, nodes: &mut Vec<Node<'a>>, declaration: &'a Iface) -> Result<(), AllocError> {
        if !declaration.is_last {
            return Ok(());
        }
        put_asked_of_subtype(nodes, &declaration.parts.get().subtype)?;
        put_asked_of_default(nodes, declaration)
    }
}

impl PartsOf<Iface> for AskedParts {
    ghost parts_are = { asked_of_port };

    fn put<'a>(&self, nodes: &mut Vec<Node<'a>>, declaration: &'a Iface) -> Result<(), AllocError> {
        if !declaration.is_last {
            return Ok(());
        }
        let parts = declaration.parts.get();
        put_asked_of_subtype(nodes, &parts.subtype)?;
        put_if_there(nodes, &parts.default)
    }
}

impl PartsOf<Decl> for AskedParts {
    ghost parts_are = { asked_of_decl };

    fn put<'a>(&self, nodes: &mut Vec<Node<'a>>, declaration: &'a Decl) -> Result<(), AllocError> {
        match declaration {
            Decl::Object(object) => put_asked_of_object(nodes, object),
            Decl::Alias(alias) => put_asked_of_alias(nodes, alias),
            Decl::Attribute(_, _) | Decl::Specification(_) | Decl::Component(_) => Ok(()),
        }
    }
}

impl PartsOf<Decl> for ApartParts {
    ghost parts_are = { apart_of_decl };

    fn put<'a>(&self, nodes: &mut Vec<Node<'a>>, declaration: &'a Decl) -> Result<(), AllocError> {
        match declaration {
            Decl::Object(_) | Decl::Alias(_) => Ok(()),
            Decl::Specification(specification) => put_apart_of_specification(nodes, specification),
            Decl::Attribute(_, _) | Decl::Component(_) => put_parts(
                nodes,
                Node::Declaration(declaration),
            ),
        }
    }
}

impl PartsOf<Decl> for ValueParts {
    ghost parts_are = { value_of_decl };

    fn put<'a>(&self, nodes: &mut Vec<Node<'a>>, declaration: &'a Decl) -> Result<(), AllocError> {
        match declaration {
            Decl::Object(object) if object.is_last => put_if_there(
                nodes,
                &object.parts.get().value,
            ),
            _ => Ok(()),
        }
    }
}

/// Puts what stands in the parentheses of a type's name, and behind `range`, at the end.
pub fn put_asked_of_subtype<'a>(
    nodes: &mut Vec<Node<'a>>,
    subtype: &'a Subtype,
) -> Result<(), AllocError>
    ensures { OnOk result (map seen nodes.new.items ≡ map seen nodes.old.items ++ asked_of_subtype subtype.now) }
{
    put_parts(nodes, Node::Name(&subtype.name))?;
    if let Some(range) = &subtype.range {
        nodes.push(Node::Expression(&range.left))?;
        nodes.push(Node::Expression(&range.right))?;
    }
    Ok(())
}

/// Puts the default of a generic at the end if it is there, and is no word of its type.
fn put_asked_of_default<'a>(nodes: &mut Vec<Node<'a>>, generic: &'a Iface) -> Result<(), AllocError>
    ensures { OnOk result (map seen nodes.new.items ≡ map seen nodes.old.items ++ asked_of_default generic.now) }
{
    if default_word(generic).is_some() {
        return Ok(());
    }
    put_if_there(nodes, &generic.parts.get().default)
}

/// Puts what is asked about in an object at the end.
fn put_asked_of_object<'a>(nodes: &mut Vec<Node<'a>>, object: &'a Object) -> Result<(), AllocError>
    ensures { OnOk result (map seen nodes.new.items ≡ map seen nodes.old.items ++ asked_of_object object.now) }
{
    if !object.is_last {
        return Ok(());
    }
    let parts = object.parts.get();
    put_asked_of_subtype(nodes, &parts.subtype)?;
    put_if_there(nodes, &parts.value)
}

/// Puts what is asked about in an alias at the end.
fn put_asked_of_alias<'a>(nodes: &mut Vec<Node<'a>>, alias: &'a Alias) -> Result<(), AllocError>
    ensures { OnOk result (map seen nodes.new.items ≡ map seen nodes.old.items ++ asked_of_alias alias.now) }
{
    if let Some(subtype) = &alias.subtype {
        put_asked_of_subtype(nodes, subtype)?;
    }
    nodes.push(Node::Name(&alias.target))?;
    Ok(())
}

/// Puts the value of an attribute that is specified at the end, unless it is the TRUE of one that says what a cell's level is.
fn put_apart_of_specification<'a>(
    nodes: &mut Vec<Node<'a>>,
    specification: &'a Specification,
) -> Result<(), AllocError>
    ensures { OnOk result (map seen nodes.new.items ≡ map seen nodes.old.items ++ apart_of_specification specification.now) }
{
    if is_level_attribute(specification.identifier.name.as_slice())
        && is_true(&specification.value)
    {
        return Ok(());
    }
    nodes.push(Node::Expression(&specification.value))?;
    Ok(())
}

/// Whether an attribute of this name says what a cell's level is.
fn is_level_attribute(name: &[u8]) -> bool
    ensures { result ≡ is_level_attribute name.now }
{
    name == b"vital_level0".as_slice() || name == b"vital_level1".as_slice()
}

/// The name of the type of a generic or a port, behind the last identifier of its declaration.
pub fn type_of_iface(iface: &Iface) -> Option<&Reference>
    ensures { option_copied result ≡ type_of_iface iface.now }
{
    if iface.is_last {
        Some(&iface.parts.get().subtype.name)
    } else {
        None
    }
}

/// The name of the type of an object, behind the last identifier of its declaration, or of an alias that has one.
pub fn type_of_decl(decl: &Decl) -> Option<&Reference>
    ensures { option_copied result ≡ type_of_decl decl.now }
{
    match decl {
        Decl::Object(object) if object.is_last => Some(&object.parts.get().subtype.name),
        Decl::Alias(alias) => match &alias.subtype {
            Some(subtype) => Some(&subtype.name),
            None => None,
        },
        _ => None,
    }
}
