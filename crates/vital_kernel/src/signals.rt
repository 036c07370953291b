//! The signals of a design.

ghost use Rattle.std.specs.Prelude.{◌≡◌, IfOk};
ghost use Rattle.vital_netlist.specs.Designs.{lent_signal};
ghost use Rattle.vital_kernel.specs.DesignNetworks as spec;

use crate::network::NetSignal;
use std::alloc::{AllocError, Global};
use vital_base::{Name, PortBit, Watch};
use vital_netlist::{Design, DesignSignal};

/// Whether the signal of a number is watched, where the bits of ports are the first signals.
fn is_watched(watch: Watch, ports: &[PortBit], number: usize) -> bool
    ensures { result ≡ spec.is_watched watch ports.now number }
{
    match watch {
        Watch::Ports => number < ports.len(),
        Watch::All => true,
    }
}

/// The signal of a number.
fn signal_of(
    alloc: Global,
    design: &Design<'_>,
    watch: Watch,
    number: usize,
    signal: &DesignSignal<'_>,
) -> Result<NetSignal, AllocError>
    ensures { IfOk result (λ found. found ≡ spec.signal_of design.now watch (number, lent_signal signal.now)) }
{
    Ok(NetSignal {
        name: Name::new(design.signal_name(alloc, signal)?),
        is_watched: is_watched(watch, design.ports().as_slice(), number),
        initial: signal.initial,
    })
}

/// The signals. It takes time in proportion to them with their names.
pub fn signals_of(
    alloc: Global,
    design: &Design<'_>,
    watch: Watch,
) -> Result<Vec<NetSignal>, AllocError>
    ensures { IfOk result (λ signals. signals.items ≡ spec.signals_of design.now watch) }
{
    let all = design.signals();
    let mut signals = Vec::new(alloc);
    for (number, signal) in all.iter().enumerate() {
        signals.push(signal_of(alloc, design, watch, number, signal)?)?;
    }
    Ok(signals)
}
