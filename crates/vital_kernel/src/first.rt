//! What a simulation of a network begins with.

ghost use Rattle.std.specs.Prelude.{◌≡◌, ◌<◌, ◌^◌, ◌++◌, All, IfOk, OnOk, length, map};
ghost use Rattle.vital_agenda.specs.Agendas.{idle};
ghost use Rattle.vital_kernel.specs.Networks.{all_drivers};
ghost use Rattle.vital_signals.specs.SignalStates.{AreCurrent, first_signals as first_signals'};

use crate::network::{NetSignal, Network};
use std::alloc::{AllocError, Global};
use vital_logic::Level;
use vital_netlist::DesignDriver;
use vital_signals::Signals;

/// The first value of each driver.
pub(crate) fn first_values(alloc: Global, network: &Network<'_>) -> Result<Vec<Level>, AllocError>
    ensures { IfOk result (λ values. values.items ≡ map (λ d. d.initial) (all_drivers network.now)) }
{
    let mut values = Vec::new(alloc);
    put_values(&mut values, network.stimulus_drivers())?;
    put_values(&mut values, network.cell_drivers())?;
    Ok(values)
}

/// Puts the first values of drivers at the end.
fn put_values(values: &mut Vec<Level>, drivers: &[DesignDriver]) -> Result<(), AllocError>
    ensures { OnOk result (values.new.items ≡ values.old.items ++ map (λ d. d.initial) drivers.now) }
{
    for driver in drivers {
        values.push(driver.initial)?;
    }
    Ok(())
}

/// The signals before the initial run, where these are the first values of the drivers, of which there are fewer than 2^31.
pub(crate) fn first_signals(
    alloc: Global,
    network: &Network<'_>,
    initial: &[Level],
) -> Result<Signals, AllocError>
    requires { initial.now ≡ map (λ d. d.initial) (all_drivers network.now) }
    ensures first { IfOk result (λ s. s ≡ first_signals' (map (λ s. s.initial) network.now.signals) (map (λ d. d.signal) (all_drivers network.now)) initial.now) }
    ensures current { IfOk result (λ s. AreCurrent s (idle initial.now).drivers) }
    ensures few { OnOk result (length initial.now < 2 ^ 31) }
{
    let all = network.signals();
    let defaults = defaults(alloc, all)?;
    let signals_of = signals_of(alloc, network)?;
    Signals::new(alloc, &defaults, &signals_of, initial)
}

/// The value of each signal as long as nothing drives it.
fn defaults(alloc: Global, signals: &[NetSignal]) -> Result<Vec<Level>, AllocError>
    ensures { IfOk result (λ values. values.items ≡ map (λ s. s.initial) signals.now) }
{
    let mut values = Vec::new(alloc);
    for signal in signals {
        values.push(signal.initial)?;
    }
    Ok(values)
}

/// The number of the signal of each driver.
fn signals_of(alloc: Global, network: &Network<'_>) -> Result<Vec<u32>, AllocError>
    requires { All (λ d. d.signal < 2 ^ 31) (all_drivers network.now) }
    ensures { IfOk result (λ numbers. numbers.items ≡ map (λ d. d.signal) (all_drivers network.now)) }
{
    let mut numbers = Vec::new(alloc);
    put_signals_of(&mut numbers, network.stimulus_drivers())?;
    put_signals_of(&mut numbers, network.cell_drivers())?;
    Ok(numbers)
}

/// Puts the numbers of the signals of drivers at the end.
fn put_signals_of(numbers: &mut Vec<u32>, drivers: &[DesignDriver]) -> Result<(), AllocError>
    requires { All (λ d. d.signal < 2 ^ 31) drivers.now }
    ensures { OnOk result (numbers.new.items ≡ numbers.old.items ++ map (λ d. d.signal) drivers.now) }
{
    for driver in drivers {
        numbers.push(driver.signal as u32)?;
    }
    Ok(())
}
