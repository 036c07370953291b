//! The associations of instances as lines.

use super::faults::{put_bytes, put_fault};
use super::library::Prepared;
use super::structures::put_bounds;
use std::alloc::{AllocError, Global};
use vital_associations::{Actual, Association, AssociationsError, Formals, associations};
use vital_instances::Fault;
use vital_logic::to_byte;
use vital_nodes::{Iface, Instance};
use vital_structure::{Part, Statement, Structure, UnitSignal};

/// Puts a part of a port or signal.
fn put_part(text: &mut String, part: Part<'_>) -> Result<(), AllocError> {
    match part {
        Part::Whole => Ok(()),
        Part::Element(index) => {
            text.push('(')?;
            put_bytes(text, index.as_slice())?;
            text.push(')')
        }
        Part::Slice(slice) => put_bounds(text, slice),
    }
}

/// Puts what is associated with a port, where these are the ports and signals around it.
fn put_actual(
    text: &mut String,
    signals: &[UnitSignal<'_>],
    actual: Actual<'_>,
) -> Result<(), AllocError> {
    match actual {
        Actual::Open => text.push_str("open"),
        Actual::Literal(level) => write!(text, "'{}'", char::from(to_byte(level))),
        Actual::Signal(number, part) => {
            if let Some(signal) = signals.get(number) {
                put_bytes(text, signal.identifier.name.as_slice())?;
            }
            put_part(text, part)
        }
    }
}

/// Puts the associations of an instance with these ports, a line each: the port with its part, and what it is associated with.
fn put_associated(
    text: &mut String,
    ports: &[Iface],
    signals: &[UnitSignal<'_>],
    associations: &[Association<'_>],
) -> Result<(), AllocError> {
    for association in associations {
        if let Some(port) = ports.get(association.port) {
            put_bytes(text, port.identifier.name.as_slice())?;
        }
        put_part(text, association.part)?;
        text.push_str(" => ")?;
        put_actual(text, signals, association.actual)?;
        text.push('\n')?;
    }
    Ok(())
}

/// Puts the associations of an instance, or the first fault, and returns whether they have none.
fn put_instance<'a>(
    alloc: Global,
    of: &Prepared<'a>,
    structure: &Structure<'a>,
    instance: &'a Instance,
    text: &mut String,
) -> Result<bool, AllocError> {
    let name = instance.unit.identifier.name.as_slice();
    let Some(number) = of.library.entity_named(name) else {
        text.push_str("no entity\n")?;
        return Ok(false);
    };
    let formals = Formals::new(alloc, of.names, of.library.entity(number))?;
    match associations(alloc, structure, &formals, instance.ports.as_slice()) {
        Ok(found) => {
            put_associated(text, formals.ports(), structure.signals(), found.as_slice())?;
            Ok(true)
        }
        Err(AssociationsError::Fault(fault)) => {
            put_fault(text, of.words, Fault::Association(fault))?;
            Ok(false)
        }
        Err(AssociationsError::NoMemory) => Err(AllocError),
    }
}

/// Puts the associations of the instances of a unit, up to the first fault of a statement.
pub fn put_instances<'a>(
    alloc: Global,
    of: &Prepared<'a>,
    structure: &Structure<'a>,
    text: &mut String,
) -> Result<(), AllocError> {
    for statement in structure.statements() {
        let is_good = match statement {
            Statement::Instance(instance) => put_instance(alloc, of, structure, instance, text)?,
            Statement::NotStructural(place) => {
                put_fault(text, of.words, Fault::NotStructural(*place))?;
                false
            }
        };
        if !is_good {
            return Ok(());
        }
    }
    Ok(())
}
