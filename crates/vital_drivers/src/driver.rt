//! L1.12: what drives the ports.

ghost use Rattle.std.specs.Prelude.{◌≡◌, ◌++◌, ◌&&◌, ◌||◌, ℕ, false, not, List, map, IfOk, OnOk};
ghost use Rattle.std.specs.List.{list_any};
ghost use Rattle.std.specs.Option.{option_map_or};
ghost use Rattle.vital_drivers.specs.Clauses.{clause_12, drives, places_12, undriven, wrong_out_signal};
ghost use Rattle.vital_drivers.specs.Kept.{has_name};
ghost use Rattle.vital_drivers.specs.Named.{is_driven_mode};
ghost use Rattle.vital_drivers.specs.PathDelays.{lent};

use crate::actual::place_of_actual;
use crate::named::is_driven_mode;
use crate::path_delay::{PathDelay, path_delays};
use crate::used_names::{UsedNames, put_name};
use std::alloc::{AllocError, Global};
use std::collections::HashSet;
use vital_base::Place;
use vital_names::CellNames;
use vital_nodes::Iface;
use vital_statements::put_if;

/// The places where L1.12 is broken: each out, inout or buffer port that no call of a path delay drives, each later call that drives
/// a port which an earlier one drives, and each actual of OutSignal that is no such port.
pub fn clause_12(alloc: Global, names: &CellNames<'_>) -> Result<Vec<Place>, AllocError>
    ensures { IfOk result (λ places. places.items ≡ clause_12 names.now) }
{
    let delays = path_delays(alloc, names)?;
    let mut places = undriven(alloc, &delays, names.entity().ports.as_slice())?;
    put_calls(alloc, &mut places, &delays)?;
    Ok(places)
}

/// The names of the ports that calls drive.
fn driven_names<'a>(alloc: Global, delays: &[PathDelay<'a>]) -> Result<UsedNames<'a>, AllocError>
    ensures { IfOk result (λ names. (name : List ℕ) → has_name names name ≡ list_any (drives name) (map lent delays.now)) }
{
    let mut names: UsedNames<'a> = HashSet::new(alloc);
    for delay in delays {
        put_driven(&mut names, *delay)?;
    }
    Ok(names)
}

/// Puts the name of the port that a call drives into a set, if it drives one, and says whether the set had it.
fn put_driven<'a>(names: &mut UsedNames<'a>, delay: PathDelay<'a>) -> Result<bool, AllocError>
    ensures again { IfOk result (λ again. again ≡ option_map_or (λ i. has_name names.old i.name) (lent delay.entry).port false) }
    ensures names { OnOk result ((name : List ℕ) → has_name names.new name ≡ (drives name (lent delay.entry) || has_name names.old name)) }
{
    match delay.port {
        Some(identifier) => Ok(!put_name(names, identifier.name.as_slice())?),
        None => Ok(false),
    }
}

/// The places of the ports with a mode that is driven, and that no call drives.
fn undriven<'a>(
    alloc: Global,
    delays: &[PathDelay<'a>],
    ports: &'a [Iface],
) -> Result<Vec<Place>, AllocError>
    ensures { IfOk result (λ places. places.items ≡ undriven (map lent delays.now) ports.now) }
{
    let driven = driven_names(alloc, delays)?;
    let mut earlier: UsedNames<'a> = HashSet::new(alloc);
    let mut places = Vec::new(alloc);
    for port in ports {
        let name = port.identifier.name.as_slice();
        // A name means the first port of that name.
        let is_meant = put_name(&mut earlier, name)?;
        put_if(
            &mut places,
            is_undriven(port, &driven, is_meant),
            port.identifier.place,
        )?;
    }
    Ok(places)
}

/// Whether a port with a mode that is driven is not driven: no call drives its name, or the name means another port.
fn is_undriven(port: &Iface, driven: &UsedNames<'_>, is_meant: bool) -> bool
    ensures { result ≡ (is_driven_mode port.now.parts.mode && not (has_name driven.now port.now.identifier.name && is_meant)) }
{
    let is_driven = driven.contains(port.identifier.name.as_slice()) && is_meant;
    is_driven_mode(port.parts.get().mode) && !is_driven
}

/// Puts the places of calls at the end.
fn put_calls(
    alloc: Global,
    places: &mut Vec<Place>,
    delays: &[PathDelay<'_>],
) -> Result<(), AllocError>
    ensures { OnOk result (places.new.items ≡ places.old.items ++ places_12 (map lent delays.now)) }
{
    let mut driven = HashSet::new(alloc);
    for delay in delays {
        let again = put_driven(&mut driven, *delay)?;
        put_if(places, again, delay.place)?;
        put_out_signal(places, *delay)?;
    }
    Ok(())
}

/// Puts the place of an OutSignal that is no port that is driven at the end.
fn put_out_signal(places: &mut Vec<Place>, delay: PathDelay<'_>) -> Result<(), AllocError>
    ensures { OnOk result (places.new.items ≡ places.old.items ++ wrong_out_signal (lent delay.entry)) }
{
    match delay.out_signal {
        Some(item) => put_if(places, delay.port.is_none(), place_of_actual(item)),
        None => Ok(()),
    }
}
