//! The keys under which instances are found by their paths and by their entities.

ghost use Rattle.std.specs.Prelude.{◌≡◌, ◌∷◌, ◌++◌, [], ℕ, List, map, IfOk, OnOk, if◌then◌else◌};
ghost use Rattle.std.specs.Str.{bytes_eq};
ghost use Rattle.vital_annotate.specs.Names.{folded};
ghost use Rattle.vital_annotate.specs.Numbers.{numbers_where};
ghost use Rattle.vital_annotate.specs.PathKeys as spec;

use crate::names::put_folded;
use crate::parts::{begins_extended, inner};
use std::alloc::{AllocError, Global};
use std::collections::HashMap;

/// The numbers of those that have a key, in order.
pub type NumbersByKey<'a> = HashMap<&'a [u8], Vec<usize>>;

/// Puts the key of a label at the end.
fn put_label(key: &mut Vec<u8>, label: &[u8]) -> Result<(), AllocError>
    ensures { OnOk result (key.new.items ≡ key.old.items ++ spec.label_key label.now) }
{
    if begins_extended(label) {
        return put_folded(key, inner(label));
    }
    key.extend_from_slice(label)
}

/// The key of a label.
pub fn label_key(alloc: Global, label: &[u8]) -> Result<Vec<u8>, AllocError>
    ensures { IfOk result (λ key. key.items ≡ spec.label_key label.now) }
{
    let mut key = Vec::new(alloc);
    put_label(&mut key, label)?;
    Ok(key)
}

/// The key of labels.
pub fn labels_key(alloc: Global, labels: &[&[u8]]) -> Result<Vec<u8>, AllocError>
    ensures { IfOk result (λ key. key.items ≡ spec.labels_key (map (λ label. label.now) labels.now)) }
{
    let mut key = Vec::new(alloc);
    for label in labels {
        put_label(&mut key, label)?;
        key.push(b'.')?;
    }
    Ok(key)
}

/// Puts the key of a path in the place of what was there.
pub fn put_path_key(key: &mut Vec<u8>, parts: &[&[u8]]) -> Result<(), AllocError>
    ensures { OnOk result (key.new.items ≡ spec.path_key (map (λ part. part.now) parts.now)) }
{
    key.clear();
    for part in parts {
        put_folded(key, part)?;
        key.push(b'.')?;
    }
    Ok(())
}

/// Puts the key of the name of an entity in the place of what was there.
pub fn put_entity_key(key: &mut Vec<u8>, entity: &[u8]) -> Result<(), AllocError>
    ensures { OnOk result (key.new.items ≡ folded entity.now) }
{
    key.clear();
    put_folded(key, entity)
}

/// Puts a number at the end of those under a key.
fn put_number<'a>(
    alloc: Global,
    numbers: &mut NumbersByKey<'a>,
    key: &'a [u8],
    number: usize,
) -> Result<(), AllocError>
    ensures { OnOk result ((q : List ℕ) → spec.numbers_under numbers.new q ≡ spec.numbers_under numbers.old q ++ (if bytes_eq key.now q then number ∷ [] else [])) }
{
    let mut group = match numbers.remove(key) {
        Some(group) => group,
        None => Vec::new(alloc),
    };
    group.push(number)?;
    numbers.insert(key, group)?;
    Ok(())
}

/// The numbers of each key among some.
pub fn numbers_by_key<'a>(
    alloc: Global,
    keys: &'a [Vec<u8>],
) -> Result<NumbersByKey<'a>, AllocError>
    ensures { IfOk result (λ numbers. (key : List ℕ) → spec.numbers_under numbers key ≡ numbers_where (λ k. bytes_eq k key) (map (λ k. k.items) keys.now)) }
{
    let mut numbers: NumbersByKey<'a> = HashMap::new(alloc);
    for (number, key) in keys.iter().enumerate() {
        put_number(alloc, &mut numbers, key.as_slice(), number)?;
    }
    Ok(numbers)
}

/// The numbers under a key, in order.
pub fn numbers_under<'b>(numbers: &'b NumbersByKey<'_>, key: &[u8]) -> &'b [usize]
    ensures { result.now ≡ spec.numbers_under numbers.now key.now }
{
    match numbers.get(key) {
        Some(group) => group.as_slice(),
        None => &[],
    }
}
