//! Units, and their nodes behind each: `describe` says what a line tells.

use super::describe::{describe, describe_unit};
use super::words::Lines;
use std::alloc::{AllocError, Global};
use vital_nodes::{Unit, nodes};

/// Puts a line for each unit, and for each of its nodes behind it.
pub fn put_units(alloc: Global, out: Lines<'_>, units: &[Unit]) -> Result<(), AllocError> {
    for unit in units {
        describe_unit(out, unit)?;
        out.push_str("\n")?;
        put_nodes(alloc, out, unit)?;
    }
    Ok(())
}

fn put_nodes(alloc: Global, out: Lines<'_>, unit: &Unit) -> Result<(), AllocError> {
    for node in nodes(alloc, unit)? {
        describe(out, &node)?;
        out.push_str("\n")?;
    }
    Ok(())
}
