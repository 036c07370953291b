//! The bits of a cell by their names.

ghost use Rattle.std.specs.Prelude.{◌≡◌, ◌++◌, map, IfOk, OnOk};
ghost use Rattle.vital_typed_cells.specs.Bits as spec;

use std::alloc::{AllocError, Global};
use std::collections::HashMap;
use std::marker::Model;
use vital_names::put_first;
use vital_objects::{Port, Signal};

/// The bits of the ports and then of the internal signals of a cell, which are found by their names. Contracts see it as the list of the
/// names.
#[derive(Drop)]
pub struct BitNumbers<'a> {
    ports: &'a [Port],
    signals: &'a [Signal],
    /// The number of the first bit of each name.
    numbers: HashMap<&'a [u8], usize>,
}

impl<'a> Model for BitNumbers<'a> {
    ghost use Rattle.std.specs.Prelude.{◌≡◌, ℕ, List};
    ghost use Rattle.vital_typed_cells.specs.Bits.{HasNumbers, names_of};

    ghost Value = { List (List ℕ) };

    ghost view = { λ b. names_of b.ports.now b.signals.now };

    ghost invariant = { λ b. HasNumbers b.numbers (names_of b.ports.now b.signals.now) };
}

/// The names of bits, in order.
fn names_of<'a>(
    alloc: Global,
    ports: &'a [Port],
    signals: &'a [Signal],
) -> Result<Vec<&'a [u8]>, AllocError>
    ensures { IfOk result (λ names. map (λ n. n.now) names.items ≡ spec.names_of ports.now signals.now) }
{
    let mut names: Vec<&'a [u8]> = Vec::new(alloc);
    put_names_of_ports(&mut names, ports)?;
    put_names_of_signals(&mut names, signals)?;
    Ok(names)
}

/// Puts the names of ports at the end.
fn put_names_of_ports<'a>(names: &mut Vec<&'a [u8]>, ports: &'a [Port]) -> Result<(), AllocError>
    ensures { OnOk result (map (λ n. n.now) names.new.items ≡ map (λ n. n.now) names.old.items ++ map (λ p. p.name) ports.now) }
{
    for port in ports {
        names.push(port.name.as_slice())?;
    }
    Ok(())
}

/// Puts the names of signals at the end.
fn put_names_of_signals<'a>(
    names: &mut Vec<&'a [u8]>,
    signals: &'a [Signal],
) -> Result<(), AllocError>
    ensures { OnOk result (map (λ n. n.now) names.new.items ≡ map (λ n. n.now) names.old.items ++ map (λ s. s.name) signals.now) }
{
    for signal in signals {
        names.push(signal.name.as_slice())?;
    }
    Ok(())
}

/// The number of the first of each name.
fn numbers_of<'a>(alloc: Global, names: &[&'a [u8]]) -> Result<HashMap<&'a [u8], usize>, AllocError>
    ensures { IfOk result (λ numbers. spec.HasNumbers numbers (map (λ n. n.now) names.now)) }
{
    let mut numbers: HashMap<&'a [u8], usize> = HashMap::new(alloc);
    for (number, name) in names.iter().enumerate() {
        put_first(&mut numbers, *name, number)?;
    }
    Ok(numbers)
}

impl<'a> BitNumbers<'a> {
    /// The bits of these ports and then of these signals.
    pub fn new(
        alloc: Global,
        ports: &'a [Port],
        signals: &'a [Signal],
    ) -> Result<BitNumbers<'a>, AllocError>
        ensures { IfOk result (λ bits. bits ≡ spec.names_of ports.now signals.now) }
    {
        let names = names_of(alloc, ports, signals)?;
        let numbers = numbers_of(alloc, &names)?;
        Ok(BitNumbers {
            ports,
            signals,
            numbers,
        })
    }

    /// The number of the first bit of a name.
    pub fn number(&self, name: &[u8]) -> Option<usize>
        ensures { result ≡ spec.number_of self.now name.now }
    {
        self.numbers.get(name).copied()
    }
}
