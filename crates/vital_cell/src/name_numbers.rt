//! Names with their numbers.

ghost use Rattle.std.specs.Prelude.{◌≡◌, ◌<◌, map, length, IfOk, IfSome};
ghost use Rattle.vital_typed_cells.specs.Bits as spec;

use std::alloc::{AllocError, Global};
use std::collections::HashMap;
use std::marker::Model;
use vital_names::put_first;

/// Names, each with its number in their order, from 0. Contracts see it as the list of the names.
#[derive(Drop)]
pub struct NameNumbers<'a> {
    names: Vec<&'a [u8]>,
    /// The number of the first of each name.
    numbers: HashMap<&'a [u8], usize>,
}

impl<'a> Model for NameNumbers<'a> {
    ghost use Rattle.std.specs.Prelude.{ℕ, List, map};
    ghost use Rattle.vital_typed_cells.specs.Bits.{HasNumbers};

    ghost Value = { List (List ℕ) };

    ghost view = { λ n. map (λ name. name.now) n.names.items };

    ghost invariant = { λ n. HasNumbers n.numbers (map (λ name. name.now) n.names.items) };
}

/// The number of the first of each name.
fn numbers_of<'a>(alloc: Global, names: &[&'a [u8]]) -> Result<HashMap<&'a [u8], usize>, AllocError>
    ensures { IfOk result (λ numbers. spec.HasNumbers numbers (map (λ name. name.now) names.now)) }
{
    let mut numbers: HashMap<&'a [u8], usize> = HashMap::new(alloc);
    for (number, name) in names.iter().enumerate() {
        put_first(&mut numbers, *name, number)?;
    }
    Ok(numbers)
}

impl<'a> NameNumbers<'a> {
    /// These names. It takes time and memory in proportion to them.
    pub fn new(alloc: Global, names: Vec<&'a [u8]>) -> Result<NameNumbers<'a>, AllocError>
        ensures { IfOk result (λ numbers. numbers ≡ map (λ name. name.now) names.entry.items) }
    {
        let numbers = numbers_of(alloc, names.as_slice())?;
        Ok(NameNumbers { names, numbers })
    }

    /// The number of the first of a name.
    pub fn number(&self, name: &[u8]) -> Option<usize>
        ensures number { result ≡ spec.number_of self.now name.now }
        ensures there { IfSome result (λ number. number < length self.now) }
    {
        self.numbers.get(name).copied()
    }
}
