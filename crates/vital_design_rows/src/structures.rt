//! Netlist units as lines: what they declare, and their statements.

use super::associations::put_instances;
use super::faults::{put_bytes, put_fault};
use super::library::Prepared;
use super::words::{UnitView, value};
use std::alloc::{AllocError, Global};
use vital_instances::Fault;
use vital_library::Library;
use vital_logic::to_byte;
use vital_nodes::{Arch, Direction, Entity, LiteralBounds, Mode};
use vital_structure::{Shape, Statement, Structure, StructureError, UnitSignal};

/// Puts bounds in parentheses, each as it stands.
pub fn put_bounds(text: &mut String, bounds: LiteralBounds<'_>) -> Result<(), AllocError> {
    text.push('(')?;
    put_bytes(text, bounds.left.as_slice())?;
    text.push_str(match bounds.direction {
        Direction::To => " to ",
        Direction::Downto => " downto ",
    })?;
    put_bytes(text, bounds.right.as_slice())?;
    text.push(')')
}

/// What a port or signal is, with the mode of a port.
fn kind_of(mode: Option<Mode>) -> &'static str {
    match mode {
        Some(Mode::In) => "in",
        Some(Mode::Out) => "out",
        Some(Mode::Inout) => "inout",
        Some(Mode::Buffer) => "buffer",
        Some(Mode::Linkage) => "linkage",
        None => "signal",
    }
}

/// Puts a port or a signal: its mode, its name, its type and its default.
fn put_signal(text: &mut String, signal: &UnitSignal<'_>) -> Result<(), AllocError> {
    text.push_str(kind_of(signal.mode))?;
    text.push(' ')?;
    put_bytes(text, signal.identifier.name.as_slice())?;
    text.push_str(if signal.is_resolved {
        " std_logic"
    } else {
        " std_ulogic"
    })?;
    if let Shape::Vector(bounds) = signal.shape {
        text.push_str("_vector")?;
        put_bounds(text, bounds)?;
    }
    if let Some(level) = signal.default {
        text.push_str(" := ")?;
        text.push(char::from(to_byte(level)))?;
    }
    text.push('\n')
}

/// Puts a statement: the label of an instance and how many items it has, or the fault.
fn put_statement(
    text: &mut String,
    words: &[String],
    statement: Statement<'_>,
) -> Result<(), AllocError> {
    match statement {
        Statement::Instance(instance) => {
            text.push_str("instance ")?;
            put_bytes(text, instance.label.name.as_slice())?;
            write!(text, " {}\n", instance.ports.len())
        }
        Statement::NotStructural(place) => put_fault(text, words, Fault::NotStructural(place)),
    }
}

/// Puts the ports and signals of a unit, and then its statements.
fn put_parts(
    text: &mut String,
    words: &[String],
    structure: &Structure<'_>,
) -> Result<(), AllocError> {
    for signal in structure.signals() {
        put_signal(text, signal)?;
    }
    for statement in structure.statements() {
        put_statement(text, words, *statement)?;
    }
    Ok(())
}

/// The entity of a name with its first architecture, if there are such.
fn unit_named<'a>(library: &'a Library, name: &str) -> Option<(&'a Entity, &'a Arch)> {
    let number = library.entity_named(name.as_bytes())?;
    if library.arch_count(number) == 0 {
        return None;
    }
    Some((library.entity(number), library.arch(number, 0)))
}

/// Puts what is looked at of the unit of the top, or the first fault of what it declares.
pub fn put_unit(
    alloc: Global,
    view: UnitView,
    of: &Prepared<'_>,
    text: &mut String,
) -> Result<(), AllocError> {
    let Some((entity, arch)) = unit_named(of.library, value(of.words, "top=")) else {
        return text.push_str("no-top\n");
    };
    match Structure::new(alloc, of.names, entity, arch) {
        Ok(structure) => match view {
            UnitView::Structure => put_parts(text, of.words, &structure),
            UnitView::Associations => put_instances(alloc, of, &structure, text),
        },
        Err(StructureError::Fault(fault)) => put_fault(text, of.words, Fault::Declaration(fault)),
        Err(StructureError::NoMemory) => Err(AllocError),
    }
}
