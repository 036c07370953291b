//! The signals of the bits of instances of cells, and their drivers.

ghost use Rattle.std.specs.Prelude.{◌≡◌, ◌++◌, [], ◌∷◌, is_some, if◌then◌else◌, IfOk, OnOk};
ghost use Rattle.std.specs.List.{filter_map, slice_get};
ghost use Rattle.std.specs.Option.{option_and_then};
ghost use Rattle.vital_netlist.specs.Cells.{number_of_entity};
ghost use Rattle.vital_netlist.specs.DesignDrivers as drivers';
ghost use Rattle.vital_netlist.specs.Elaboration as spec;
ghost use Rattle.vital_instances.specs.Designs.{AreEntered};
ghost use Rattle.vital_netlist.specs.Wiring as made;
ghost use Rattle.vital_netlist.specs.Wiring.{driven_of, objects_of, wires_of_number};
ghost use Rattle.vital_netlist.specs.Nets.{signal_number, signals as signals'};

use crate::bit::Bit;
use crate::cells::Cells;
use crate::design_lists::DesignDriver;
use crate::laws::bits_have_signals;
use crate::netlist::Netlist;
use crate::signals::Signals;
use std::alloc::{AllocError, Global};
use vital_base::List;
use vital_logic::Level;
use vital_naturals::Natural;

/// The wiring and the drivers of a design.
#[derive(Drop)]
pub struct Wired {
    /// For each instance of a cell, in order, the signals of its bits.
    pub wiring: Vec<List<usize>>,
    pub drivers: Vec<DesignDriver>,
}

/// Puts the signal of a bit, if it has one.
fn put_wire(
    alloc: Global,
    netlist: &Netlist<'_>,
    signals: &Signals,
    bit: Bit,
    found: &mut Vec<usize>,
) -> Result<(), AllocError>
    requires { signals.now ≡ signals' netlist.now.files netlist.now.instances }
    ensures { OnOk result (found.new.items ≡ found.old.items ++ filter_map (signal_number netlist.now.files netlist.now.instances) (bit ∷ [])) }
{
    if let Some(signal) = signals.number(alloc, netlist, bit)? {
        found.push(signal)?;
    }
    Ok(())
}

/// The signals of the bits of an instance of a cell, each of whose ports and internal signals is one bit.
fn signals_of_bits(
    alloc: Global,
    netlist: &Netlist<'_>,
    signals: &Signals,
    instance: usize,
) -> Result<List<usize>, AllocError>
    requires { signals.now ≡ signals' netlist.now.files netlist.now.instances }
    ensures { IfOk result (λ found. found ≡ wires_of_number netlist.now instance) }
{
    let mut found = Vec::new(alloc);
    for object in 0..netlist.objects(instance).len() {
        let bit = Bit {
            instance,
            object,
            offset: Natural::zero(alloc),
        };
        put_wire(alloc, netlist, signals, bit, &mut found)?;
    }
    Ok(List::new(found))
}

/// The default of a port or signal of an instance, or 'U'.
fn initial_of(netlist: &Netlist<'_>, instance: usize, number: usize) -> Level
    ensures { result ≡ spec.default_of (option_and_then (λ o. o.default) (slice_get (objects_of netlist.now instance) number)) }
{
    let default = match netlist.objects(instance).get(number) {
        Some(object) => object.default,
        None => None,
    };
    default.unwrap_or(Level::U)
}

/// Puts the driver of a port or signal of an instance, if it is one of those that have these signals.
fn put_driver(
    netlist: &Netlist<'_>,
    instance: usize,
    wires: &[usize],
    number: usize,
    drivers: &mut Vec<DesignDriver>,
) -> Result<(), AllocError>
    ensures { OnOk result (drivers.new.items ≡ drivers.old.items ++ made.drivers (objects_of netlist.now instance) wires.now (number ∷ [])) }
{
    if let Some(signal) = wires.get(number) {
        drivers.push(DesignDriver {
            signal: *signal,
            initial: initial_of(netlist, instance, number),
        })?;
    }
    Ok(())
}

/// Puts the drivers of an instance of a cell, the signals of whose bits are these.
fn put_drivers(
    netlist: &Netlist<'_>,
    instance: usize,
    wires: &[usize],
    drivers: &mut Vec<DesignDriver>,
) -> Result<(), AllocError>
    ensures { OnOk result (drivers.new.items ≡ drivers.old.items ++ made.drivers (objects_of netlist.now instance) wires.now (driven_of netlist.now instance)) }
{
    for number in netlist.driven(instance) {
        put_driver(netlist, instance, wires, *number, drivers)?;
    }
    Ok(())
}

impl Wired {
    /// Puts the wiring and the drivers of an instance of a cell.
    fn put(
        &mut self,
        alloc: Global,
        netlist: &Netlist<'_>,
        signals: &Signals,
        instance: usize,
    ) -> Result<(), AllocError>
        requires signals { signals.now ≡ signals' netlist.now.files netlist.now.instances }
        ensures wiring { OnOk result (self.new.wiring.items ≡ self.old.wiring.items ++ wires_of_number netlist.now instance ∷ []) }
        ensures drivers { OnOk result (self.new.drivers.items ≡ self.old.drivers.items ++ made.drivers (objects_of netlist.now instance) (wires_of_number netlist.now instance) (driven_of netlist.now instance)) }
    {
        let wires = signals_of_bits(alloc, netlist, signals, instance)?;
        put_drivers(netlist, instance, wires.as_slice(), &mut self.drivers)?;
        self.wiring.push(wires)?;
        Ok(())
    }

    /// Puts those of the instance of a number, which is one of this entity, if that is a cell.
    fn put_if_cell(
        &mut self,
        alloc: Global,
        cells: &Cells<'_>,
        netlist: &Netlist<'_>,
        signals: &Signals,
        instance: usize,
        entity: u32,
    ) -> Result<(), AllocError>
        requires signals { signals.now ≡ signals' netlist.now.files netlist.now.instances }
        ensures wiring { OnOk result (self.new.wiring.items ≡ self.old.wiring.items ++ (if is_some (number_of_entity cells.now.files cells.now.instances entity) then wires_of_number netlist.now instance ∷ [] else [])) }
        ensures drivers { OnOk result (self.new.drivers.items ≡ self.old.drivers.items ++ (if is_some (number_of_entity cells.now.files cells.now.instances entity) then made.drivers (objects_of netlist.now instance) (wires_of_number netlist.now instance) (driven_of netlist.now instance) else [])) }
    {
        match cells.number(entity) {
            Some(_) => self.put(alloc, netlist, signals, instance),
            None => Ok(()),
        }
    }

    /// The wiring and the drivers of all instances of cells, in order. It takes time in proportion to their bits with the labels on their
    /// paths.
    pub fn new(
        alloc: Global,
        cells: &Cells<'_>,
        netlist: &Netlist<'_>,
        signals: &Signals,
    ) -> Result<Wired, AllocError>
        requires entered { AreEntered netlist.now.files netlist.now.instances }
        requires cells { cells.now ≡ netlist.now }
        requires signals { signals.now ≡ signals' netlist.now.files netlist.now.instances }
        ensures wiring { IfOk result (λ found. found.wiring.items ≡ spec.wiring netlist.now.files netlist.now.instances) }
        ensures drivers { IfOk result (λ found. found.drivers.items ≡ filter_map (spec.design_driver netlist.now.files netlist.now.instances) (drivers'.all_driven_bits netlist.now.files netlist.now.instances)) }
    {
        bits_have_signals();
        let mut wired = Wired {
            wiring: Vec::new(alloc),
            drivers: Vec::new(alloc),
        };
        for (number, instance) in netlist.instances().iter().enumerate() {
            wired.put_if_cell(alloc, cells, netlist, signals, number, instance.entity)?;
        }
        Ok(wired)
    }
}
