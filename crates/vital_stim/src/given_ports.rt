//! Given ports by their names.

ghost use Rattle.std.specs.Prelude.{◌≡◌, ◌<◌, ◌^◌, ◌&&◌, ℕ, List, length, Some, IfOk, OnOk, is_none, if◌then◌else◌};
ghost use Rattle.std.specs.List.{position_or_len};
ghost use Rattle.std.specs.Str.{bytes_eq};
ghost use Rattle.vital_stim.specs.GivenPorts.{number_in, number_of};
ghost use Rattle.vital_stim.specs.KnownPorts.{as_told};
ghost use Rattle.vital_stim.specs.Stimuli.{Stimulus, is_named, among_given};

use crate::fault::StimWhy;
use std::alloc::{AllocError, Global};
use std::collections::HashMap;
use std::marker::Model;
use vital_base::{List, Name, PortBit, Ports};

/// Ports that are given, which are found by their names. Contracts see it as the list of the ports.
#[derive(Drop)]
pub struct GivenPorts<'a> {
    ports: &'a [PortBit],
    /// The number of the first port of each name.
    numbers: HashMap<&'a [u8], u32>,
}

impl<'a> Model for GivenPorts<'a> {
    ghost use Rattle.std.specs.Prelude.{List};
    ghost use Rattle.std.specs.Coded.{codes};
    ghost use Rattle.vital_base.specs.declared.ports.PortBit.{PortBit};
    ghost use Rattle.vital_base.specs.contracts.ports.PortBit as port_bit;
    ghost use Rattle.vital_stim.specs.GivenPorts.{Numbers};

    ghost Value = { List PortBit };

    ghost coded = { Prim.hlevel (codes, port_bit.the_row.coded) };

    ghost view = { λ given. given.ports.now };

    ghost invariant = { λ given. Numbers given.ports.now given.numbers };
}

impl<'a> GivenPorts<'a> {
    /// The index of these ports.
    pub fn new(alloc: Global, ports: &'a Ports) -> Result<GivenPorts<'a>, AllocError>
        requires { length ports.now < 2 ^ 32 }
        ensures { IfOk result (λ given. given ≡ ports.now) }
    {
        let ports = ports.as_slice();
        let numbers = numbers_of(alloc, ports)?;
        Ok(GivenPorts { ports, numbers })
    }

    /// The number of the first port of a name, if it is an input; else the test that it fails.
    pub fn input(&self, name: &[u8]) -> Result<u32, StimWhy>
        ensures number { IfOk result (λ number. number ≡ position_or_len (is_named name.now) self.now) }
        ensures told { (stimulus : Stimulus) → stimulus.name ≡ name.now → as_told stimulus result ≡ among_given (Some self.now) stimulus }
    {
        let Some(number) = self.number(name) else {
            return Err(StimWhy::UnknownPort);
        };
        if self.ports[number as usize].input {
            Ok(number)
        } else {
            Err(StimWhy::NotInput)
        }
    }

    /// The number of the first port of a name.
    fn number(&self, name: &[u8]) -> Option<u32>
        ensures { result ≡ number_of self.now name.now }
    {
        self.numbers.get(name).copied()
    }

    /// A copy of the ports.
    pub fn copy(&self, alloc: Global) -> Result<Ports, AllocError>
        ensures { IfOk result (λ copied. copied ≡ self.now) }
    {
        Ok(List::new(copies_of(alloc, self.ports)?))
    }
}

fn copies_of(alloc: Global, ports: &[PortBit]) -> Result<Vec<PortBit>, AllocError>
    ensures { IfOk result (λ copied. copied.items ≡ ports.now) }
{
    let mut copied = Vec::with_capacity(alloc, ports.len())?;
    for port in ports {
        copied.push(copy_of(alloc, port)?)?;
    }
    Ok(copied)
}

fn copy_of(alloc: Global, port: &PortBit) -> Result<PortBit, AllocError>
    ensures { IfOk result (λ copied. copied ≡ port.now) }
{
    Ok(PortBit {
        name: Name::new(Vec::from_slice(alloc, port.name.as_slice())?),
        input: port.input,
        initial: port.initial,
    })
}

/// The number of the first port of each name.
fn numbers_of<'a>(alloc: Global, ports: &'a [PortBit]) -> Result<HashMap<&'a [u8], u32>, AllocError>
    requires { length ports.now < 2 ^ 32 }
    ensures { IfOk result (λ numbers. (name : List ℕ) → number_in numbers name ≡ number_of ports.now name) }
{
    let mut numbers: HashMap<&'a [u8], u32> = HashMap::new(alloc);
    for (number, port) in ports.iter().enumerate() {
        put_number(&mut numbers, port.name.as_slice(), number as u32)?;
    }
    Ok(numbers)
}

/// Puts the number of a port under its name, if there is none yet.
fn put_number<'a>(
    numbers: &mut HashMap<&'a [u8], u32>,
    name: &'a [u8],
    number: u32,
) -> Result<(), AllocError>
    ensures { OnOk result ((q : List ℕ) → number_in numbers.new q ≡ (if is_none (number_in numbers.old q) && bytes_eq name.now q then Some number else number_in numbers.old q)) }
{
    if numbers.contains_key(name) {
        return Ok(());
    }
    numbers.insert(name, number)?;
    Ok(())
}
