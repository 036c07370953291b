//! The ports and signals of a netlist unit.

ghost use Rattle.std.specs.Prelude.{◌≡◌};
ghost use Rattle.std.specs.Option.{option_map};
ghost use Rattle.vital_structure.specs.Signals as spec;

use crate::shape::Shape;
use crate::signal_type::{SignalType, default_in, signal_type};
use vital_declarations::type_of;
use vital_logic::Level;
use vital_names::LibraryNames;
use vital_nodes::{Expr, Identifier, Iface, Mode, Object, Subtype};

/// A port or a signal of a netlist unit.
#[derive(Clone, Copy)]
pub struct UnitSignal<'a> {
    pub identifier: &'a Identifier,
    /// The mode of a port. A declared signal has none.
    pub mode: Option<Mode>,
    pub shape: Shape<'a>,
    /// Whether each bit is STD_LOGIC, which is resolved, and not STD_ULOGIC (IEEE 1164).
    pub is_resolved: bool,
    /// What its default gives each bit.
    pub default: Option<Level>,
}

/// A port or a signal of a type with a default, if the default is of the form that the type asks.
fn signal_with<'a>(
    identifier: &'a Identifier,
    mode: Option<Mode>,
    default: &Option<Expr>,
    signal_type: SignalType<'a>,
) -> Option<UnitSignal<'a>>
    ensures { option_map spec.lent result ≡ spec.signal_with identifier.now mode default.now (spec.lent_type signal_type.entry) }
{
    let SignalType { shape, is_resolved } = signal_type;
    match default_in(shape, default) {
        Some(default) => Some(UnitSignal {
            identifier,
            mode,
            shape,
            is_resolved,
            default,
        }),
        None => None,
    }
}

/// A port or a signal, if its type and its default are ones that it may have.
fn signal_of<'a>(
    library: &LibraryNames<'_>,
    identifier: &'a Identifier,
    mode: Option<Mode>,
    subtype: &'a Subtype,
    default: &Option<Expr>,
) -> Option<UnitSignal<'a>>
    ensures { option_map spec.lent result ≡ spec.signal_of identifier.now mode subtype.now default.now }
{
    match signal_type(type_of(library, subtype)) {
        Some(signal_type) => signal_with(identifier, mode, default, signal_type),
        None => None,
    }
}

/// A port as a signal of its unit, if its type and its default are ones that it may have.
pub fn port_signal<'a>(library: &LibraryNames<'_>, port: &'a Iface) -> Option<UnitSignal<'a>>
    ensures { option_map spec.lent result ≡ spec.port_signal port.now }
{
    let parts = port.parts.get();
    signal_of(
        library,
        &port.identifier,
        Some(parts.mode),
        &parts.subtype,
        &parts.default,
    )
}

/// A declared signal, if its type and its default are ones that it may have.
pub fn object_signal<'a>(library: &LibraryNames<'_>, object: &'a Object) -> Option<UnitSignal<'a>>
    ensures { option_map spec.lent result ≡ spec.object_signal object.now }
{
    let parts = object.parts.get();
    signal_of(
        library,
        &object.identifier,
        None,
        &parts.subtype,
        &parts.value,
    )
}
