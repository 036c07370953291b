//! Elaboration of the instances under a top.

ghost use Rattle.std.specs.Prelude.{◌≡◌, ◌++◌, [], ◌∷◌, true, false, map, Some, None, All, IfOk, IfErr, OnOk};
ghost use Rattle.std.specs.List.{filter_map};
ghost use Rattle.std.specs.Option.{option_and_then, option_map, option_map_or};
ghost use Rattle.vital_as_read.specs.Libraries.{IsFromText};
ghost use Rattle.vital_connections.specs.Objects.{lent};
ghost use Rattle.vital_netlist.specs.Designs as designs;
ghost use Rattle.vital_instances.specs.Designs.{AreEntered};
ghost use Rattle.vital_netlist.specs.DesignDrivers as drivers';
ghost use Rattle.vital_netlist.specs.Elaboration as spec;
ghost use Rattle.vital_netlist.specs.Refusals.{IsDesigned, IsFault, IsFaultIn};
ghost use Rattle.vital_netlist.specs.Bits.{object_of};
ghost use Rattle.vital_netlist.specs.Nets.{signals as signals'};

use crate::bit::Bit;
use crate::design::Design;
use crate::design_lists::{
    DesignDriver, DesignInstance, DesignLists, DesignSignal, Site, driver_counts,
};
use crate::design_parts::DesignParts;
use crate::laws::designs_are_sound;
use crate::net_fault::{ElabError, Mark, NetFault};
use crate::netlist::Netlist;
use crate::ports::ports_of;
use crate::signals::Signals;
use crate::wiring::Wired;
use std::alloc::{AllocError, Global};
use vital_connections::{Object, index_at};
use vital_instances::{Instance, Position};
use vital_logic::Level;
use vital_nodes::Mode;

/// The greatest number of drivers of a design. More count as want of memory.
const MOST_DRIVERS: usize = 2_147_483_647;

/// Where the instance at a position stands.
fn site_at<'a>(parts: &DesignParts<'a>, position: Position) -> Option<Site<'a>>
    requires { parts.now.net_units.now ≡ parts.now.library.now }
    ensures { option_map designs.lent_site result ≡ spec.site_at parts.now.library.now parts.now.instances.now position }
{
    let parent = parts.instances.get(position.parent)?;
    let child = parts.net_units.children(parent.entity).get(position.child)?;
    Some(Site {
        instance: position.parent,
        label: child.label.name.as_slice(),
    })
}

/// Where an instance stands, unless it is the top.
fn site_of<'a>(parts: &DesignParts<'a>, instance: &Instance) -> Option<Site<'a>>
    requires { parts.now.net_units.now ≡ parts.now.library.now }
    ensures { option_map designs.lent_site result ≡ option_and_then (spec.site_at parts.now.library.now parts.now.instances.now) instance.now.position }
{
    match instance.position {
        Some(position) => site_at(parts, position),
        None => None,
    }
}

/// The instances of a design.
fn instances_of<'a>(
    alloc: Global,
    parts: &DesignParts<'a>,
    netlist: &Netlist<'a>,
) -> Result<Vec<DesignInstance<'a>>, AllocError>
    requires net_units { parts.now.net_units.now ≡ parts.now.library.now }
    requires cells { parts.now.cells.now ≡ record { files = parts.now.library.now; instances = parts.now.instances.now } }
    requires netlist { netlist.now ≡ record { files = parts.now.library.now; instances = parts.now.instances.now } }
    ensures { IfOk result (λ found. map designs.lent_instance found.items ≡ map (spec.design_instance parts.now.library.now parts.now.instances.now) parts.now.instances.now) }
{
    let mut found = Vec::new(alloc);
    for (number, instance) in parts.instances.iter().enumerate() {
        found.push(DesignInstance {
            site: site_of(parts, instance),
            unit: netlist.name(number),
            cell: parts.cells.number(instance.entity),
        })?;
    }
    Ok(found)
}

/// The signal that a bit of a port or signal is.
fn signal_of<'a>(
    alloc: Global,
    netlist: &Netlist<'a>,
    bit: &Bit,
    object: Object<'a>,
) -> Result<DesignSignal<'a>, AllocError>
    ensures { IfOk result (λ signal. designs.lent_signal signal ≡ spec.signal_with netlist.now.files netlist.now.instances bit.now (lent object.entry)) }
{
    let initial = netlist.tied(bit).or(object.default).unwrap_or(Level::U);
    Ok(DesignSignal {
        instance: bit.instance,
        identifier: object.name,
        index: index_at(alloc, object.shape, &bit.offset)?,
        is_resolved: object.is_resolved,
        initial,
    })
}

/// Puts the signal that a bit is.
fn put_signal<'a>(
    alloc: Global,
    netlist: &Netlist<'a>,
    bit: &Bit,
    found: &mut Vec<DesignSignal<'a>>,
) -> Result<(), AllocError>
    ensures { OnOk result (map designs.lent_signal found.new.items ≡ map designs.lent_signal found.old.items ++ filter_map (spec.design_signal netlist.now.files netlist.now.instances) (bit.now ∷ [])) }
{
    if let Some(object) = netlist.object(bit) {
        found.push(signal_of(alloc, netlist, bit, object)?)?;
    }
    Ok(())
}

/// The signals of a design.
fn signals_of<'a>(
    alloc: Global,
    netlist: &Netlist<'a>,
    signals: &Signals,
) -> Result<Vec<DesignSignal<'a>>, AllocError>
    requires { signals.now ≡ signals' netlist.now.files netlist.now.instances }
    ensures { IfOk result (λ found. map designs.lent_signal found.items ≡ filter_map (spec.design_signal netlist.now.files netlist.now.instances) (signals' netlist.now.files netlist.now.instances)) }
{
    let mut found = Vec::new(alloc);
    for bit in signals.bits() {
        put_signal(alloc, netlist, bit, &mut found)?;
    }
    Ok(found)
}

/// Whether a signal may be driven from outside: it is a bit of an inout port of the top.
fn is_driven_outside(bit: &Bit, object: Object<'_>) -> bool
    ensures { result ≡ drivers'.is_driven_outside bit.now (lent object.entry) }
{
    bit.instance == 0 && object.mode == Some(Mode::Inout)
}

/// Whether a bit of a port or signal with so many drivers in cells has two drivers, but may not.
fn has_two(bit: &Bit, object: Object<'_>, drivers: usize) -> bool
    ensures { result ≡ drivers'.has_two_with drivers bit.now (lent object.entry) }
{
    !object.is_resolved && (drivers > 1 || drivers > 0 && is_driven_outside(bit, object))
}

/// A port or signal has two drivers.
fn two_drivers(object: Object<'_>) -> ElabError<'_>
    ensures { IsFault (spec.driven_twice (lent object.entry)) result }
{
    ElabError::Net(NetFault::TwoDrivers(Mark {
        place: object.place,
        name: Some(object.name),
    }))
}

/// A bit that is a signal with so many drivers in cells does not have two drivers where it may not.
fn test_signal<'a>(netlist: &Netlist<'a>, bit: &Bit, drivers: usize) -> Result<(), ElabError<'a>>
    ensures one { IfOk result (λ nothing. option_map_or (drivers'.has_two_with drivers bit.now) (object_of netlist.now.files netlist.now.instances bit.now) false ≡ false) }
    ensures two { IfErr result (λ e. option_map_or (drivers'.has_two_with drivers bit.now) (object_of netlist.now.files netlist.now.instances bit.now) false ≡ true) }
    ensures fault { IfErr result (IsFaultIn (option_map spec.driven_twice (object_of netlist.now.files netlist.now.instances bit.now))) }
{
    match netlist.object(bit) {
        Some(object) => {
            if has_two(bit, object, drivers) {
                return Err(two_drivers(object));
            }
            Ok(())
        }
        None => Ok(()),
    }
}

/// No signal of an unresolved type has two drivers; or the first one that has.
fn test_drivers<'a>(
    alloc: Global,
    netlist: &Netlist<'a>,
    signals: &Signals,
    drivers: &[DesignDriver],
) -> Result<(), ElabError<'a>>
    requires signals { signals.now ≡ signals' netlist.now.files netlist.now.instances }
    requires drivers { drivers.now ≡ filter_map (spec.design_driver netlist.now.files netlist.now.instances) (drivers'.all_driven_bits netlist.now.files netlist.now.instances) }
    ensures none { IfOk result (λ nothing. spec.fault_of_drivers netlist.now.files netlist.now.instances ≡ None) }
    ensures fault { IfErr result (IsFaultIn (spec.fault_of_drivers netlist.now.files netlist.now.instances)) }
{
    let counts = driver_counts(alloc, signals.bits().len(), drivers)?;
    for (number, bit) in signals.bits().iter().enumerate() {
        test_signal(netlist, bit, counts[number])?;
    }
    Ok(())
}

/// The design of the instances under a top, or its first fault: one signal too many, and then two drivers of one signal. It takes time in
/// proportion to the instances with the labels on their paths, their bits and drivers, and the text of the
/// units. 2^31 drivers or more count as want of memory.
pub fn elaborate<'a>(alloc: Global, parts: &DesignParts<'a>) -> Result<Design<'a>, ElabError<'a>>
    requires read { All IsFromText parts.now.library.now }
    requires net_units { parts.now.net_units.now ≡ parts.now.library.now }
    requires cells { parts.now.cells.now ≡ record { files = parts.now.library.now; instances = parts.now.instances.now } }
    requires entered { AreEntered parts.now.library.now parts.now.instances.now }
    ensures { IsDesigned (spec.designed parts.now.library.now parts.now.instances.now) result }
{
    designs_are_sound();
    let netlist = Netlist::new(alloc, parts)?;
    let signals = Signals::new(alloc, &netlist)?;
    let Wired { wiring, drivers } = Wired::new(alloc, parts.cells, &netlist, &signals)?;
    test_drivers(alloc, &netlist, &signals, &drivers)?;
    if drivers.len() > MOST_DRIVERS {
        return Err(ElabError::NoMemory);
    }
    Ok(Design::new(DesignLists {
        instances: instances_of(alloc, parts, &netlist)?,
        signals: signals_of(alloc, &netlist, &signals)?,
        drivers,
        ports: ports_of(alloc, &netlist)?,
        cells: parts.cells.all(),
        wiring,
    }))
}
