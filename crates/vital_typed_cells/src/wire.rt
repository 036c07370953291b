//! The wire delays of a cell.

ghost use Rattle.std.specs.Prelude.{◌≡◌, [], ◌∷◌, ◌++◌, map, IfOk, OnOk};
ghost use Rattle.std.specs.List.{filter_map};
ghost use Rattle.vital_typed_cells.specs.Wires as spec;
ghost use Rattle.vital_drivers.specs.Wires.{lent};

use sqlite_items::Items;
use std::alloc::{AllocError, Global};
use vital_base::Name;
use vital_drivers::{Wire, wire_of};
use vital_names::CellNames;
use vital_nodes::Conc;
use vital_objects::name_of;

/// A call of VitalWireDelay (IEEE 1076.4), which is executed as a process of its own that is sensitive to its port.
#[derive(Drop)]
pub struct WireDelay {
    /// The internal signal that it drives.
    pub signal: Name,
    /// The in or inout port whose changes come to the signal.
    pub port: Name,
    /// The generic that is the delay of the port: its name behind `tipd_`.
    pub generic: Name,
}

/// The name of the generic of a port's wire delay.
fn tipd(alloc: Global, port: &[u8]) -> Result<Name, AllocError>
    ensures { IfOk result (λ name. name ≡ spec.tipd port.now) }
{
    let mut name = Vec::from_slice(alloc, b"tipd_")?;
    name.extend_from_slice(port)?;
    Ok(Name::new(name))
}

/// The wire delay that joins a signal and a port.
fn joined(alloc: Global, wire: Wire<'_>) -> Result<WireDelay, AllocError>
    ensures { IfOk result (λ found. found ≡ spec.joined (lent wire.entry)) }
{
    Ok(WireDelay {
        signal: name_of(alloc, wire.signal)?,
        port: name_of(alloc, wire.port)?,
        generic: tipd(alloc, wire.port.name.as_slice())?,
    })
}

/// Puts the wire delay that a statement is at the end, if it is one.
fn put_wire(
    alloc: Global,
    names: &CellNames<'_>,
    conc: &Conc,
    wires: &mut Vec<WireDelay>,
) -> Result<(), AllocError>
    ensures { OnOk result (wires.new.items ≡ wires.old.items ++ filter_map (spec.wire names.now) (conc.now ∷ [])) }
{
    if let Some(wire) = wire_of(names, conc) {
        wires.push(joined(alloc, wire)?)?;
    }
    Ok(())
}

/// The wire delays among concurrent statements of a cell, in order. It takes time in proportion to the statements.
pub fn read_wires<'a>(
    alloc: Global,
    names: &CellNames<'_>,
    statements: &[&'a Conc],
) -> Result<Items<WireDelay>, AllocError>
    ensures { IfOk result (λ wires. wires ≡ filter_map (spec.wire names.now) (map (λ c. c.now) statements.now)) }
{
    let mut wires = Vec::new(alloc);
    for conc in statements {
        put_wire(alloc, names, conc, &mut wires)?;
    }
    Ok(Items::from_vec(wires))
}
