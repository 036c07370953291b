//! The names of instances and signals, as they are printed.

ghost use Rattle.std.specs.Prelude.{◌≡◌, ◌++◌, map, IfOk, OnOk};
ghost use Rattle.vital_netlist.specs.Names as spec;

use std::alloc::{AllocError, Global};
use vital_naturals::Natural;

/// Puts a bit at the end: its identifier, and in a vector its index in parentheses behind it.
pub(crate) fn put_bit(
    alloc: Global,
    text: &mut Vec<u8>,
    identifier: &[u8],
    index: &Option<Natural>,
) -> Result<(), AllocError>
    ensures { OnOk result (text.new.items ≡ text.old.items ++ spec.bit_name identifier.now index.now) }
{
    text.extend_from_slice(identifier)?;
    if let Some(index) = index {
        text.push(b'(')?;
        text.extend_from_slice(&index.numeral(alloc)?)?;
        text.push(b')')?;
    }
    Ok(())
}

/// Puts labels at the end, a dot behind each.
pub(crate) fn put_dots(text: &mut Vec<u8>, labels: &[&[u8]]) -> Result<(), AllocError>
    ensures { OnOk result (text.new.items ≡ text.old.items ++ spec.with_dots (map (λ l. l.now) labels.now)) }
{
    for label in labels {
        text.extend_from_slice(label)?;
        text.push(b'.')?;
    }
    Ok(())
}

/// Puts the path of an instance with these labels at the end: a dot between each two of them, and a dash for the top, which has none.
pub(crate) fn put_path(text: &mut Vec<u8>, labels: &[&[u8]]) -> Result<(), AllocError>
    ensures { OnOk result (text.new.items ≡ text.old.items ++ spec.path_name (map (λ l. l.now) labels.now)) }
{
    match labels.split_last() {
        Some((last, others)) => {
            put_dots(text, others)?;
            text.extend_from_slice(last)?;
        }
        None => text.push(b'-')?,
    }
    Ok(())
}

/// A bit: its identifier, and in a vector its index in parentheses behind it.
pub fn bit_name(
    alloc: Global,
    identifier: &[u8],
    index: &Option<Natural>,
) -> Result<Vec<u8>, AllocError>
    ensures { IfOk result (λ name. name.items ≡ spec.bit_name identifier.now index.now) }
{
    let mut name = Vec::new(alloc);
    put_bit(alloc, &mut name, identifier, index)?;
    Ok(name)
}
