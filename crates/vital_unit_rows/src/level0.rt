//! The breaches of Level 0 in entities.

use super::words::Lines;
use std::alloc::{AllocError, Global};
use vital_base::{Breach, Clause, Place};
use vital_level0::breaches0;
use vital_nodes::{Entity, Unit};

fn put_breach(out: Lines<'_>, breach: &Breach) -> Result<(), AllocError> {
    let Clause { level, number } = breach.clause;
    let Place { line, column, .. } = breach.place;
    write!(out, "L{level}.{number} {line} {column}\n")
}

fn put_of_entity(alloc: Global, out: Lines<'_>, entity: &Entity) -> Result<(), AllocError> {
    for breach in breaches0(alloc, entity)?.as_slice() {
        put_breach(out, breach)?;
    }
    Ok(())
}

/// Puts a line for each breach of an entity: the clause, the line and the column.
pub fn put_breaches(alloc: Global, out: Lines<'_>, units: &[Unit]) -> Result<(), AllocError> {
    for unit in units {
        if let Unit::Entity(entity) = unit {
            put_of_entity(alloc, out, entity)?;
        }
    }
    Ok(())
}
