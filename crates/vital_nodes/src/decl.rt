//! Interfaces and declarations (IEEE 1076-1993, clause 4).

use crate::expr::{Expr, Range, Reference};
use crate::identifier::Identifier;
use crate::shared::Shared;
use sqlite_items::Items;

/// A type's name, and the range behind `range` if one is written.
#[derive(Drop)]
pub struct Subtype {
    pub name: Reference,
    pub range: Option<Range>,
}

/// The word before the identifiers of an interface.
#[derive(Clone, Copy, PartialEq, Eq)]
pub enum IfaceClass {
    Constant,
    Signal,
}

/// The mode of an interface (IEEE 1076-1993, 4.3.2).
#[derive(Clone, Copy, Debug, PartialEq, Eq)]
pub enum Mode {
    In,
    Out,
    Inout,
    Buffer,
    Linkage,
}

/// What stands around the identifiers of an interface.
#[derive(Drop)]
pub struct IfaceParts {
    pub class: Option<IfaceClass>,
    /// `in` where none is written.
    pub mode: Mode,
    pub subtype: Subtype,
    /// Whether `bus` is written.
    pub bus: bool,
    pub default: Option<Expr>,
}

/// A generic or a port: one for each identifier, and those that are declared together share their parts.
#[derive(Drop)]
pub struct Iface {
    pub identifier: Identifier,
    pub parts: Shared<IfaceParts>,
    /// Whether it is the last identifier of its declaration, behind which the parts stand.
    pub is_last: bool,
}

/// What an object is declared as.
#[derive(Clone, Copy, PartialEq, Eq)]
pub enum ObjectClass {
    Constant,
    Signal,
    Variable,
}

/// What stands after the identifiers of an object.
#[derive(Drop)]
pub struct ObjectParts {
    pub subtype: Subtype,
    pub value: Option<Expr>,
}

/// A constant, a signal or a variable: one for each identifier, and those that are declared together share their parts.
#[derive(Drop)]
pub struct Object {
    pub class: ObjectClass,
    pub identifier: Identifier,
    pub parts: Shared<ObjectParts>,
    /// Whether it is the last identifier of its declaration, behind which the parts stand.
    pub is_last: bool,
}

/// What an attribute is specified of.
#[derive(Drop)]
pub enum Designator {
    Identifier(Identifier),
    All,
    Others,
}

/// The class of entities that an attribute is specified of (IEEE 1076-1993, 5.1).
#[derive(Clone, Copy, PartialEq, Eq)]
pub enum EntityClass {
    Entity,
    Architecture,
    Component,
    Signal,
    Label,
}

/// `attribute X of D : class is value`.
#[derive(Drop)]
pub struct Specification {
    pub identifier: Identifier,
    pub designator: Designator,
    pub class: EntityClass,
    pub value: Expr,
}

/// `alias X : subtype is name`.
#[derive(Drop)]
pub struct Alias {
    pub identifier: Identifier,
    pub subtype: Option<Subtype>,
    pub target: Reference,
}

/// A component with its generics and ports.
#[derive(Drop)]
pub struct Component {
    pub identifier: Identifier,
    pub generics: Items<Iface>,
    pub ports: Items<Iface>,
}

/// A declaration: one for each identifier.
#[derive(Drop)]
pub enum Decl {
    /// `attribute X : type`.
    Attribute(Identifier, Reference),
    Specification(Specification),
    Object(Object),
    Alias(Alias),
    Component(Component),
}
