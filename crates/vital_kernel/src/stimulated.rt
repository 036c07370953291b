//! The drivers of port bits for stimuli.

ghost use Rattle.std.specs.Prelude.{◌≡◌, ◌<◌, ◌++◌, [], ◌∷◌, All, IfOk, OnOk, false, filter, if◌then◌else◌, length, map, slice_index_or};
ghost use Rattle.std.specs.List.{enumerate_from, range_with_len};
ghost use Rattle.vital_kernel.specs.DesignNetworks as spec;

use std::alloc::{AllocError, Global};
use vital_base::PortBit;
use vital_logic::{Level, from_byte};
use vital_netlist::DesignDriver;
use vital_stim::StimLine;

/// The level that a port has at first: its default, or 'U'.
pub fn initial_level(port: &PortBit) -> Level
    ensures { result ≡ spec.initial_level port.now }
{
    from_byte(port.initial).unwrap_or(Level::U)
}

/// The driver of the port bit of a number.
pub fn stimulus_driver(number: usize, port: &PortBit) -> DesignDriver
    ensures { result ≡ spec.stimulus_driver (number, port.now) }
{
    DesignDriver {
        signal: number,
        initial: initial_level(port),
    }
}

/// For each of so many port bits whether some line names it.
fn named_ports(alloc: Global, ports: usize, lines: &[StimLine]) -> Result<Vec<bool>, AllocError>
    requires { All (λ line. line.port < ports) lines.now }
    ensures { IfOk result (λ named. named.items ≡ map (spec.is_stimulated lines.now) (range_with_len 0 ports)) }
{
    let mut named = vec![in alloc; false; ports]?;
    for line in lines {
        named[line.port as usize] = true;
    }
    Ok(named)
}

/// Puts the driver of the port bit of a number at the end, if a line names it.
fn put_driver(
    number: usize,
    port: &PortBit,
    is_named: bool,
    drivers: &mut Vec<DesignDriver>,
) -> Result<(), AllocError>
    ensures { OnOk result (drivers.new.items ≡ drivers.old.items ++ (if is_named then spec.stimulus_driver (number, port.now) ∷ [] else [])) }
{
    if is_named {
        drivers.push(stimulus_driver(number, port))?;
    }
    Ok(())
}

/// The drivers of the port bits that are named.
fn drivers_of_named(
    alloc: Global,
    ports: &[PortBit],
    named: &[bool],
) -> Result<Vec<DesignDriver>, AllocError>
    requires { length named.now ≡ length ports.now }
    ensures { IfOk result (λ drivers. drivers.items ≡ map spec.stimulus_driver (filter (λ p. slice_index_or named.now p.0 false) (enumerate_from 0 ports.now))) }
{
    let mut drivers = Vec::new(alloc);
    for (number, port) in ports.iter().enumerate() {
        put_driver(number, port, named[number], &mut drivers)?;
    }
    Ok(drivers)
}

/// The drivers of the port bits that some line names. It takes time in proportion to port bits and lines.
pub fn stimulus_drivers(
    alloc: Global,
    ports: &[PortBit],
    lines: &[StimLine],
) -> Result<Vec<DesignDriver>, AllocError>
    requires { All (λ line. line.port < length ports.now) lines.now }
    ensures { IfOk result (λ drivers. drivers.items ≡ spec.stimulus_drivers ports.now lines.now) }
{
    let named = named_ports(alloc, ports.len(), lines)?;
    drivers_of_named(alloc, ports, &named)
}
