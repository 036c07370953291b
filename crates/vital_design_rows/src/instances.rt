//! Instances as lines.

use super::faults::put_bytes;
use super::library::Prepared;
use std::alloc::{AllocError, Global};
use vital_instances::{Instance, NetUnits};
use vital_library::Library;
use vital_nodes::{Identifier, Role};

/// The label of an instance and the number of its parent, if it has one.
fn step<'a>(
    units: &NetUnits<'a>,
    instances: &[Instance],
    number: usize,
) -> Option<(&'a Identifier, usize)> {
    let position = instances.get(number)?.position?;
    let parent = instances.get(position.parent)?;
    let child = units.children(parent.entity).get(position.child)?;
    Some((child.label, position.parent))
}

/// The labels on the path of an instance, from the last to the first.
fn labels<'a>(
    alloc: Global,
    units: &NetUnits<'a>,
    instances: &[Instance],
    number: usize,
) -> Result<Vec<&'a Identifier>, AllocError> {
    let mut labels = Vec::new(alloc);
    let mut at = number;
    for _ in 0..32 {
        if let Some((label, parent)) = step(units, instances, at) {
            labels.push(label)?;
            at = parent;
        }
    }
    Ok(labels)
}

/// Puts a path: labels with dots between them, or a dash for the top.
fn put_path(text: &mut String, labels: &[&Identifier]) -> Result<(), AllocError> {
    if labels.is_empty() {
        return text.push('-');
    }
    for (before, label) in labels.iter().rev().enumerate() {
        if before > 0 {
            text.push('.')?;
        }
        put_bytes(text, label.name.as_slice())?;
    }
    Ok(())
}

/// Puts the unit of an instance, and whether it is a cell.
fn put_unit(text: &mut String, library: &Library, entity: u32) -> Result<(), AllocError> {
    if entity >= library.entity_count() {
        return Err(AllocError);
    }
    text.push(' ')?;
    put_bytes(text, library.entity(entity).identifier.name.as_slice())?;
    match library.role(entity) {
        Role::Lib => text.push_str(" cell\n"),
        Role::Net => text.push_str(" net\n"),
    }
}

/// Puts each instance: its path, its unit and whether it is a cell.
pub fn put_instances(
    alloc: Global,
    of: &Prepared<'_>,
    instances: &[Instance],
    text: &mut String,
) -> Result<(), AllocError> {
    for (number, instance) in instances.iter().enumerate() {
        text.push_str("instance ")?;
        let labels = labels(alloc, of.net_units, instances, number)?;
        put_path(text, &labels)?;
        put_unit(text, of.library, instance.entity)?;
    }
    Ok(())
}
