//! The ports of an entity by their names.

ghost use Rattle.std.specs.Prelude.{◌≡◌, ℕ, ◌+◌, ◌==◌, Bool, List, length, Option, IfOk, OnOk, if◌then◌else◌, is_none, ◌&&◌};
ghost use Rattle.std.specs.Option.{option_map};
ghost use Rattle.std.specs.Str.{bytes_eq};
ghost use Rattle.vital_level0.specs.PortIndexes.{number_in};
ghost use Rattle.vital_level0.specs.Ports.{mode_at, number_of};

use std::alloc::{AllocError, Global};
use std::collections::HashMap;
use std::marker::Model;
use vital_nodes::{Entity, Iface, Mode};

/// The ports of an entity, which are found by their names. Contracts see it as the list of the ports.
#[derive(Drop)]
pub struct PortIndex<'a> {
    ports: &'a [Iface],
    /// The number of the first port of each name.
    numbers: HashMap<&'a [u8], usize>,
}

impl<'a> Model for PortIndex<'a> {
    ghost use Rattle.std.specs.Prelude.{List};
    ghost use Rattle.vital_level0.specs.PortIndexes.{Numbers};
    ghost use Rattle.vital_nodes.specs.declared.decl.Iface.{Iface};
    ghost use Rattle.vital_nodes.specs.contracts.decl.Iface as iface;
    ghost use Rattle.std.specs.Coded.{codes};

    ghost Value = { List Iface };

    ghost coded = { Prim.hlevel (codes, iface.the_row.coded) };

    ghost view = { λ index. index.ports.now };

    ghost invariant = { λ index. Numbers index.ports.now index.numbers };
}

impl<'a> PortIndex<'a> {
    /// The index of an entity's ports.
    pub fn new(alloc: Global, entity: &'a Entity) -> Result<PortIndex<'a>, AllocError>
        ensures { IfOk result (λ index. index ≡ entity.now.ports) }
    {
        let ports = entity.ports.as_slice();
        let numbers = numbers_of(alloc, ports)?;
        Ok(PortIndex { ports, numbers })
    }

    /// The number of the first port of a name.
    pub fn number(&self, name: &[u8]) -> Option<usize>
        ensures { result ≡ number_of self.now name.now }
    {
        self.numbers.get(name).copied()
    }

    /// The mode of a port.
    pub fn mode(&self, number: usize) -> Option<Mode>
        ensures { result ≡ mode_at self.now number }
    {
        match self.ports.get(number) {
            Some(port) => Some(port.parts.get().mode),
            None => None,
        }
    }
}

/// The number of the first port of each name.
fn numbers_of<'a>(alloc: Global, ports: &'a [Iface]) -> Result<HashMap<&'a [u8], usize>, AllocError>
    ensures { IfOk result (λ numbers. (name : List ℕ) → number_in numbers name ≡ number_of ports.now name) }
{
    let mut numbers: HashMap<&'a [u8], usize> = HashMap::new(alloc);
    for (number, port) in ports.iter().enumerate() {
        put_number(&mut numbers, port.identifier.name.as_slice(), number)?;
    }
    Ok(numbers)
}

/// Puts the number of a port under its name, if there is none yet.
fn put_number<'a>(
    numbers: &mut HashMap<&'a [u8], usize>,
    name: &'a [u8],
    number: usize,
) -> Result<(), AllocError>
    ensures { OnOk result ((q : List ℕ) → number_in numbers.new q ≡ (if is_none (number_in numbers.old q) && bytes_eq name.now q then Some number else number_in numbers.old q)) }
{
    if numbers.contains_key(name) {
        return Ok(());
    }
    numbers.insert(name, number)?;
    Ok(())
}
