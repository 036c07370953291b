//! The ports of the top.

ghost use Rattle.std.specs.Prelude.{◌≡◌, ◌++◌, Some, IfOk, OnOk};
ghost use Rattle.vital_connections.specs.Objects.{lent};
ghost use Rattle.vital_netlist.specs.Elaboration as spec;
ghost use Rattle.vital_netlist.specs.declared.bit.Bit.{Bit};
ghost use Rattle.vital_netlist.specs.Ports as made;

use crate::names::bit_name;
use crate::netlist::Netlist;
use std::alloc::{AllocError, Global};
use vital_base::{List, Name, PortBit, Ports};
use vital_connections::{Object, index_at, length_of};
use vital_logic::{Level, to_byte};
use vital_naturals::Natural;
use vital_nodes::Mode;

/// Whether a stimulus may drive a port of a mode.
fn is_input(mode: Mode) -> bool
    ensures { result ≡ spec.is_input mode }
{
    mode == Mode::In || mode == Mode::Inout
}

/// The bit of a port of this mode that is so far from the left.
fn port_bit(
    alloc: Global,
    object: Object<'_>,
    mode: Mode,
    offset: &Natural,
) -> Result<PortBit, AllocError>
    ensures { IfOk result (λ port. (b : Bit) → b.offset ≡ offset.now → spec.port_bit_in b (lent object.entry) (Some mode) ≡ Some port) }
{
    let index = index_at(alloc, object.shape, offset)?;
    Ok(PortBit {
        name: Name::new(bit_name(alloc, object.name, &index)?),
        input: is_input(mode),
        initial: to_byte(object.default.unwrap_or(Level::U)),
    })
}

/// Puts so many bits of a port of this mode, from left to right.
fn put_bits(
    alloc: Global,
    object: Object<'_>,
    mode: Mode,
    count: &Natural,
    ports: &mut Vec<PortBit>,
) -> Result<(), AllocError>
    ensures { OnOk result (ports.new.items ≡ ports.old.items ++ made.first_bits (lent object.entry) mode count.now) }
{
    let mut offset = Natural::zero(alloc);
    while offset.is_less(count) {
        ports.push(port_bit(alloc, object, mode, &offset)?)?;
        offset = offset.successor(alloc)?;
    }
    Ok(())
}

/// Puts the bits of a port, from left to right. A signal has none.
fn put_port(alloc: Global, object: Object<'_>, ports: &mut Vec<PortBit>) -> Result<(), AllocError>
    ensures { OnOk result (ports.new.items ≡ ports.old.items ++ made.bits_in (lent object.entry)) }
{
    if let Some(mode) = object.mode {
        let count = length_of(alloc, object.shape)?;
        put_bits(alloc, object, mode, &count, ports)?;
    }
    Ok(())
}

/// The bits of the ports of the top, in order. It takes time in proportion to them.
pub fn ports_of(alloc: Global, netlist: &Netlist<'_>) -> Result<Ports, AllocError>
    ensures { IfOk result (λ ports. ports ≡ spec.port_bits netlist.now.files netlist.now.instances) }
{
    let mut ports = Vec::new(alloc);
    for object in netlist.objects(0) {
        put_port(alloc, *object, &mut ports)?;
    }
    Ok(List::new(ports))
}
