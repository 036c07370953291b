//! The clauses of ports: L0.4, L0.5 and L0.6.

ghost use Rattle.std.specs.Prelude.{◌≡◌};
ghost use Rattle.std.specs.Option.{option_map_or};
ghost use Rattle.vital_level0.specs.Clauses.{breaks_4, breaks_5, breaks_6, is_extended, scalar_types};
ghost use Rattle.vital_level0.specs.Split.{holds_underscore};
ghost use Rattle.vital_level0.specs.TypeNames.{is_among, is_plain};

use crate::type_name::{is_vector, plain_type};
use vital_nodes::{Iface, Mode, Subtype};

/// Whether the identifier of a port holds an underscore or is extended.
pub fn breaks_4(port: &Iface) -> bool
    ensures { result ≡ breaks_4 port.now }
{
    let name = port.identifier.name.as_slice();
    name.contains(&b'_') || name.starts_with(b"\\")
}

/// Whether a port has the mode linkage, or bus.
pub fn breaks_5(port: &Iface) -> bool
    ensures { result ≡ breaks_5 port.now }
{
    let parts = port.parts.get();
    parts.mode == Mode::Linkage || parts.bus
}

/// Whether a port has another type than those of levels.
pub fn breaks_6(port: &Iface) -> bool
    ensures { result ≡ breaks_6 port.now }
{
    let subtype = &port.parts.get().subtype;
    !(is_scalar(subtype) || is_vector(subtype))
}

/// Whether a subtype is a type of scalar ports.
fn is_scalar(subtype: &Subtype) -> bool
    ensures { result ≡ is_plain scalar_types subtype.now }
{
    match plain_type(subtype) {
        Some(name) => is_scalar_type(name),
        None => false,
    }
}

/// Whether a name is that of a type of scalar ports.
fn is_scalar_type(name: &[u8]) -> bool
    ensures { result ≡ is_among scalar_types name.now }
{
    name == b"std_ulogic".as_slice()
        || name == b"std_logic".as_slice()
        || name == b"x01".as_slice()
        || name == b"x01z".as_slice()
        || name == b"ux01".as_slice()
        || name == b"ux01z".as_slice()
}
