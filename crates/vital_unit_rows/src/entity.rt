//! A file with its entities and their ports: how many tokens it has, what it is, and the file, the line and the column of each identifier.

use super::words::{Lines, mode_word, put_named, role_word};
use std::alloc::AllocError;
use vital_base::Place;
use vital_nodes::{Identifier, Iface, Unit, Units};

fn put_identifier(out: Lines<'_>, word: &str, identifier: &Identifier) -> Result<(), AllocError> {
    let Place { file, line, column } = identifier.place;
    put_named(out, word, identifier.name.as_slice())?;
    write!(out, " {file} {line} {column}")
}

fn put_ports(out: Lines<'_>, ports: &[Iface]) -> Result<(), AllocError> {
    for port in ports {
        put_identifier(out, "port", &port.identifier)?;
        write!(out, " {}\n", mode_word(port.parts.get().mode))?;
    }
    Ok(())
}

/// Puts a line for a file, and for each entity and each of its ports.
pub fn put_entities(out: Lines<'_>, read: &Units) -> Result<(), AllocError> {
    write!(out, "{} tokens {}\n", role_word(read.role), read.tokens)?;
    for unit in read.units.as_slice() {
        if let Unit::Entity(entity) = unit {
            put_identifier(out, "entity", &entity.identifier)?;
            write!(out, " ports {}\n", entity.ports.len())?;
            put_ports(out, entity.ports.as_slice())?;
        }
    }
    Ok(())
}
