//! The parts of a network of ports alone.

ghost use Rattle.std.specs.Prelude.{◌≡◌, IfOk, map};
ghost use Rattle.std.specs.List.{enumerate_from};
ghost use Rattle.vital_kernel.specs.DesignNetworks as spec;
ghost use Rattle.vital_kernel.specs.PortNetworks as ports;

use crate::network::NetSignal;
use crate::stimulated::{initial_level, stimulus_driver};
use std::alloc::{AllocError, Global};
use vital_base::PortBit;
use vital_netlist::DesignDriver;

/// The signal of a port bit, whose name it takes.
fn port_signal(port: PortBit) -> NetSignal
    ensures { result ≡ ports.port_signal port }
{
    let initial = initial_level(&port);
    NetSignal {
        name: port.name,
        is_watched: true,
        initial,
    }
}

/// The signals of port bits, whose names they take.
pub fn port_signals(alloc: Global, bits: Vec<PortBit>) -> Result<Vec<NetSignal>, AllocError>
    ensures { IfOk result (λ signals. signals.items ≡ map ports.port_signal bits.items) }
{
    let mut signals = Vec::with_capacity(alloc, bits.len())?;
    for port in bits {
        signals.push(port_signal(port))?;
    }
    Ok(signals)
}

/// The drivers of port bits for stimuli.
pub fn port_drivers(alloc: Global, bits: &[PortBit]) -> Result<Vec<DesignDriver>, AllocError>
    ensures { IfOk result (λ drivers. drivers.items ≡ map spec.stimulus_driver (enumerate_from 0 bits.now)) }
{
    let mut drivers = Vec::with_capacity(alloc, bits.len())?;
    for (number, port) in bits.iter().enumerate() {
        drivers.push(stimulus_driver(number, port))?;
    }
    Ok(drivers)
}
