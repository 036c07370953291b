//! The ports that lines may name.

ghost use Rattle.std.specs.Prelude.{◌≡◌, ◌+◌, ◌<◌, ◌≤◌, ◌^◌, [], length, map, OnOk, IfOk, IfSome};
ghost use Rattle.std.specs.List.{position_or_len};
ghost use Rattle.std.specs.Str.{bytes_eq};
ghost use Rattle.vital_stim.specs.KnownPorts.{given_in, ports_in, named_count, with_port, as_told};
ghost use Rattle.vital_stim.specs.Names.{texts, names_count, with_name};
ghost use Rattle.vital_stim.specs.Stimuli.{Stimulus, is_named, among_given, input_port, lent};

use crate::fault::StimWhy;
use crate::given_ports::GivenPorts;
use indexmap::IndexSet;
use std::alloc::{AllocError, Global};
use vital_base::{List, Name, PortBit, Ports};
use vital_logic::{Level, to_byte};

/// The ports that lines may name.
#[derive(Drop)]
pub enum KnownPorts<'a> {
    /// No ports are given: the names that lines have, in order of first sight.
    Named(IndexSet<Vec<u8>>),
    /// The ports that are given.
    Given(GivenPorts<'a>),
}

impl<'a> KnownPorts<'a> {
    /// These ports, or where none are given none yet.
    pub fn new(alloc: Global, ports: Option<&'a Ports>) -> Result<Self, AllocError>
        requires { IfSome ports (λ given. length given.now < 2 ^ 32) }
        ensures given { IfOk result (λ known. given_in known ≡ lent ports.entry) }
        ensures none { IfOk result (λ known. lent ports.entry ≡ None → ports_in known ≡ []) }
        ensures count { IfOk result (λ known. named_count known ≡ 0) }
    {
        match ports {
            Some(ports) => Ok(KnownPorts::Given(GivenPorts::new(alloc, ports)?)),
            None => Ok(KnownPorts::Named(IndexSet::new(alloc))),
        }
    }

    /// The number of the port that has this name, or the test that it fails. Where no ports are given, a new name is put
    /// at the end.
    pub fn number(&mut self, alloc: Global, name: &[u8]) -> Result<Result<u32, StimWhy>, AllocError>
        requires { named_count self.old < 2 ^ 32 }
        ensures given { OnOk result (given_in self.new ≡ given_in self.old) }
        ensures number { IfOk result (λ found. IfOk found (λ number. number ≡ position_or_len (is_named name.now) (ports_in self.old))) }
        ensures told { IfOk result (λ found. (stimulus : Stimulus) → stimulus.name ≡ name.now → as_told stimulus found ≡ among_given (given_in self.old) stimulus) }
        ensures ports { IfOk result (λ found. OnOk found (ports_in self.new ≡ with_port (ports_in self.old) name.now)) }
        ensures count { OnOk result (named_count self.new ≤ named_count self.old + 1) }
    {
        match self {
            KnownPorts::Named(names) => Ok(Ok(place_of(alloc, names, name)? as u32)),
            KnownPorts::Given(ports) => Ok(ports.input(name)),
        }
    }

    /// The ports, as they are handed on.
    pub fn into_ports(self, alloc: Global) -> Result<Ports, AllocError>
        ensures { IfOk result (λ ports. ports ≡ ports_in self.entry) }
    {
        match self {
            KnownPorts::Named(names) => ports_of(alloc, names),
            KnownPorts::Given(ports) => ports.copy(alloc),
        }
    }
}

/// The ports with these names, in order.
fn ports_of(alloc: Global, names: IndexSet<Vec<u8>>) -> Result<Ports, AllocError>
    ensures { IfOk result (λ ports. ports ≡ map input_port (texts names)) }
{
    let mut ports = Vec::with_capacity(alloc, names.len())?;
    for name in names {
        ports.push(input_port(name))?;
    }
    Ok(List::new(ports))
}

/// A port that is known by its name alone.
fn input_port(name: Vec<u8>) -> PortBit
    ensures { result ≡ input_port name.items }
{
    PortBit {
        name: Name::new(name),
        input: true,
        initial: to_byte(Level::U),
    }
}

/// The place of a name among the names, at whose end it is put if it is new.
fn place_of(alloc: Global, names: &mut IndexSet<Vec<u8>>, name: &[u8]) -> Result<usize, AllocError>
    ensures names { OnOk result (texts names.new ≡ with_name (texts names.old) name.now) }
    ensures place { IfOk result (λ place. place ≡ position_or_len (bytes_eq name.now) (texts names.old)) }
    ensures within { IfOk result (λ place. place ≤ names_count names.old) }
    ensures count { OnOk result (names_count names.new ≤ names_count names.old + 1) }
{
    match names.get_index_of(name) {
        Some(place) => Ok(place),
        None => {
            let place = names.len();
            names.insert(Vec::from_slice(alloc, name)?)?;
            Ok(place)
        }
    }
}
