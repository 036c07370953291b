//! Lines that tell what a unit or a node is.
//!
//! A line has the kind of the node, its line and column, and what belongs to it alone: the identifier that it declares, with a
//! comma where it is not the last of its declaration; class, mode and `bus`; the direction of its range; the operators between its
//! operands; the number of its operands, items or statements; the formal before `=>`. What a node holds has lines of its own, behind
//! it. A name has its suffixes as `.a`, `.all`, `'a`, and `(2` or `'(2` for two items in parentheses.

use super::describe_expressions::{describe_expression, describe_item, describe_name};
use super::words::{Lines, mode_word, put_bytes};
use std::alloc::AllocError;
use vital_base::Place;
use vital_nodes::{
    Conc, Decl, Designator, Direction, EntityClass, Expr, Identifier, If, Iface, IfaceClass,
    Instance, Node, Object, ObjectClass, Specification, Stmt, Subtype, Unit,
};

/// A kind and a place.
pub fn put_kind(out: Lines<'_>, kind: &str, place: Place) -> Result<(), AllocError> {
    let Place { line, column, .. } = place;
    write!(out, "{kind} {line}:{column}")
}

/// A kind, a place and the bytes of a name or a number.
pub fn put_text(out: Lines<'_>, kind: &str, place: Place, text: &[u8]) -> Result<(), AllocError> {
    put_kind(out, kind, place)?;
    out.push(' ')?;
    put_bytes(out, text)
}

/// A kind, the place and the name of an identifier, and more names behind words.
fn put_declared(
    out: Lines<'_>,
    kind: &str,
    place: Place,
    identifier: &Identifier,
    others: &[(&str, &Identifier)],
) -> Result<(), AllocError> {
    put_text(out, kind, place, identifier.name.as_slice())?;
    for (word, other) in others {
        write!(out, " {word} ")?;
        put_bytes(out, other.name.as_slice())?;
    }
    Ok(())
}

pub fn describe_unit(out: Lines<'_>, unit: &Unit) -> Result<(), AllocError> {
    match unit {
        Unit::Entity(entity) => put_declared(out, "entity", entity.place, &entity.identifier, &[]),
        Unit::Arch(arch) => put_declared(
            out,
            "architecture",
            arch.place,
            &arch.identifier,
            &[("of", &arch.entity)],
        ),
        Unit::Pack(pack) => put_declared(out, "package", pack.place, &pack.identifier, &[]),
        Unit::Config(config) => put_declared(
            out,
            "configuration",
            config.place,
            &config.identifier,
            &[("of", &config.entity), ("for", &config.arch)],
        ),
    }
}

pub fn describe(out: Lines<'_>, node: &Node<'_>) -> Result<(), AllocError> {
    match node {
        Node::Declaration(declaration) => describe_declaration(out, declaration),
        Node::Interface(interface) => describe_interface(out, interface),
        Node::Concurrent(statement) => describe_concurrent(out, statement),
        Node::Sequential(statement) => describe_sequential(out, statement),
        Node::Expression(expression) => describe_expression(out, expression),
        Node::Item(item) => describe_item(out, item),
        Node::Name(name) => describe_name(out, name),
    }
}

// ---- declarations

/// The direction of a subtype's range, if it has one.
fn put_range(out: Lines<'_>, subtype: &Subtype) -> Result<(), AllocError> {
    match &subtype.range {
        Some(range) => put_direction(out, range.direction),
        None => Ok(()),
    }
}

pub fn put_direction(out: Lines<'_>, direction: Direction) -> Result<(), AllocError> {
    out.push_str(match direction {
        Direction::To => " to",
        Direction::Downto => " downto",
    })
}

fn put_comma(out: Lines<'_>, is_last: bool) -> Result<(), AllocError> {
    out.push_str(if is_last { "" } else { "," })
}

fn describe_object(out: Lines<'_>, object: &Object) -> Result<(), AllocError> {
    let kind = match object.class {
        ObjectClass::Constant => "constant",
        ObjectClass::Signal => "signal",
        ObjectClass::Variable => "variable",
    };
    put_declared(out, kind, object.identifier.place, &object.identifier, &[])?;
    put_comma(out, object.is_last)?;
    put_range(out, &object.parts.get().subtype)
}

fn describe_specification(out: Lines<'_>, given: &Specification) -> Result<(), AllocError> {
    let identifier = &given.identifier;
    put_declared(out, "specification", identifier.place, identifier, &[])?;
    out.push_str(" of ")?;
    match &given.designator {
        Designator::Identifier(named) => put_bytes(out, named.name.as_slice())?,
        Designator::All => out.push_str("all")?,
        Designator::Others => out.push_str("others")?,
    }
    out.push_str(match given.class {
        EntityClass::Entity => " entity",
        EntityClass::Architecture => " architecture",
        EntityClass::Component => " component",
        EntityClass::Signal => " signal",
        EntityClass::Label => " label",
    })
}

fn describe_declaration(out: Lines<'_>, declaration: &Decl) -> Result<(), AllocError> {
    match declaration {
        Decl::Attribute(identifier, _) => {
            put_declared(out, "attribute", identifier.place, identifier, &[])
        }
        Decl::Specification(specification) => describe_specification(out, specification),
        Decl::Object(object) => describe_object(out, object),
        Decl::Alias(alias) => {
            put_declared(out, "alias", alias.identifier.place, &alias.identifier, &[])?;
            match &alias.subtype {
                Some(subtype) => put_range(out, subtype),
                None => Ok(()),
            }
        }
        Decl::Component(component) => {
            let identifier = &component.identifier;
            put_declared(out, "component", identifier.place, identifier, &[])
        }
    }
}

fn describe_interface(out: Lines<'_>, interface: &Iface) -> Result<(), AllocError> {
    let identifier = &interface.identifier;
    let parts = interface.parts.get();
    put_declared(out, "interface", identifier.place, identifier, &[])?;
    put_comma(out, interface.is_last)?;
    out.push_str(match parts.class {
        Some(IfaceClass::Constant) => " constant",
        Some(IfaceClass::Signal) => " signal",
        None => "",
    })?;
    write!(out, " {}", mode_word(parts.mode))?;
    out.push_str(if parts.bus { " bus" } else { "" })?;
    put_range(out, &parts.subtype)
}

// ---- statements

fn describe_instance(
    out: Lines<'_>,
    kind: &str,
    place: Place,
    instance: &Instance,
) -> Result<(), AllocError> {
    put_declared(out, kind, place, &instance.label, &[])?;
    let generics = instance.generics.len();
    let ports = instance.ports.len();
    write!(out, " {generics} {ports}")
}

/// `after`, where a delay is written.
fn put_after(out: Lines<'_>, after: &Option<Expr>) -> Result<(), AllocError> {
    out.push_str(if after.is_some() { " after" } else { "" })
}

fn describe_concurrent(out: Lines<'_>, statement: &Conc) -> Result<(), AllocError> {
    match statement {
        Conc::Process(place, None, _) => put_kind(out, "process", *place),
        Conc::Process(place, Some(label), _) => put_declared(out, "process", *place, label, &[]),
        Conc::ComponentInstance(place, instance) => {
            describe_instance(out, "component-instance", *place, instance)
        }
        Conc::Instance(place, instance) => describe_instance(out, "instance", *place, instance),
        Conc::Block(place, label, _) => put_declared(out, "block", *place, label, &[]),
        Conc::Call(place, _) => put_kind(out, "call", *place),
        Conc::SignalAssignment(place, assignment) => {
            put_kind(out, "signal-assignment", *place)?;
            put_after(out, &assignment.after)
        }
    }
}

/// How many statements each branch has, and how many stand behind `else`.
fn put_branches(out: Lines<'_>, statement: &If) -> Result<(), AllocError> {
    for branch in statement.branches.as_slice() {
        let count = branch.statements.len();
        write!(out, " {count}")?;
    }
    if let Some(statements) = &statement.otherwise {
        let count = statements.len();
        write!(out, " else {count}")?;
    }
    Ok(())
}

fn describe_sequential(out: Lines<'_>, statement: &Stmt) -> Result<(), AllocError> {
    match statement {
        Stmt::VariableAssignment(place, _) => put_kind(out, "variable-assignment", *place),
        Stmt::SignalAssignment(place, assignment) => {
            put_kind(out, "signal-assignment", *place)?;
            put_after(out, &assignment.after)
        }
        Stmt::Call(place, _) => put_kind(out, "call", *place),
        Stmt::If(place, parts) => {
            put_kind(out, "if", *place)?;
            put_branches(out, parts)
        }
        Stmt::Null(place) => put_kind(out, "null", *place),
    }
}
