//! The parts that the names of timing generics split into.

use super::words::Lines;
use std::alloc::{AllocError, Global};
use vital_level0::{Edge, Parts, PortIndex, Prefix, split_generic};
use vital_nodes::{Entity, Unit};

fn prefix_word(prefix: Prefix) -> &'static str {
    match prefix {
        Prefix::Tpd => "tpd",
        Prefix::Tipd => "tipd",
        Prefix::Tsetup => "tsetup",
        Prefix::Thold => "thold",
        Prefix::Trecovery => "trecovery",
        Prefix::Tremoval => "tremoval",
        Prefix::Tperiod => "tperiod",
        Prefix::Tpw => "tpw",
        Prefix::Tisd => "tisd",
        Prefix::Ticd => "ticd",
    }
}

/// An edge as it is written, or `-` where none is.
fn edge_word(edge: Edge) -> &'static str {
    match edge {
        Edge::Absent => "-",
        Edge::Noedge => "noedge",
        Edge::Posedge => "posedge",
        Edge::Negedge => "negedge",
    }
}

/// The prefix, the numbers of the ports, where the condition's name begins and ends, and the edges, with `-` for what is absent.
fn put_parts(out: Lines<'_>, parts: &Parts) -> Result<(), AllocError> {
    write!(out, "{} {}", prefix_word(parts.kind), parts.first)?;
    match parts.second {
        Some(second) => write!(out, " {second}")?,
        None => out.push_str(" -")?,
    }
    match parts.condition {
        Some((first, end)) => write!(out, " {first}..{end}")?,
        None => out.push_str(" -")?,
    }
    let [first, second] = parts.edges;
    write!(out, " {} {}\n", edge_word(first), edge_word(second))
}

fn put_of_entity(alloc: Global, out: Lines<'_>, entity: &Entity) -> Result<(), AllocError> {
    let ports = PortIndex::new(alloc, entity)?;
    for generic in entity.generics.as_slice() {
        match split_generic(generic.identifier.name.as_name(), &ports) {
            Some(parts) => put_parts(out, &parts)?,
            None => out.push_str("whole\n")?,
        }
    }
    Ok(())
}

/// Puts a line for each generic of an entity: the parts of its name, or `whole` where it does not split.
pub fn put_splits(alloc: Global, out: Lines<'_>, units: &[Unit]) -> Result<(), AllocError> {
    for unit in units {
        if let Unit::Entity(entity) = unit {
            put_of_entity(alloc, out, entity)?;
        }
    }
    Ok(())
}
