//! The clauses of generics: L0.7 to L0.10, apart from how names split.

ghost use Rattle.std.specs.Prelude.{◌≡◌};
ghost use Rattle.vital_level0.specs.Clauses.{begins_as_timing, breaks_8, breaks_9, breaks_10_control, breaks_10_instance_path, breaks_10_split, is_control, is_delay_type_of, is_instance_path};

use crate::default_value::{is_delay, is_string};
use crate::parts::Prefix;
use crate::type_name::{delay_type, is_boolean, is_text};
use vital_nodes::{Iface, identifier_of};
use vital_timing::DelayType;

/// Whether a name begins with the word of a prefix and an underscore.
pub fn begins_as_timing(name: &[u8]) -> bool
    ensures { result ≡ begins_as_timing name.now }
{
    name.starts_with(b"tpd_")
        || name.starts_with(b"tipd_")
        || name.starts_with(b"tsetup_")
        || name.starts_with(b"thold_")
        || name.starts_with(b"trecovery_")
        || name.starts_with(b"tremoval_")
        || name.starts_with(b"tperiod_")
        || name.starts_with(b"tpw_")
        || name.starts_with(b"tisd_")
        || name.starts_with(b"ticd_")
}

/// Whether a generic that splits with this prefix has a type that it may not have.
pub fn breaks_8(kind: Prefix, generic: &Iface) -> bool
    ensures { result ≡ breaks_8 kind generic.now }
{
    match delay_type(&generic.parts.get().subtype) {
        Some(delay_type) => !is_delay_type_of(kind, delay_type),
        None => true,
    }
}

/// Whether a generic of a prefix may have a type.
fn is_delay_type_of(kind: Prefix, delay_type: DelayType) -> bool
    ensures { result ≡ is_delay_type_of kind delay_type }
{
    match delay_type {
        DelayType::One => true,
        DelayType::Two | DelayType::Six => matches!(kind, Prefix::Tpd | Prefix::Tipd),
    }
}

/// Whether a generic is a control that is not Boolean, or an instance path that is not a String.
pub fn breaks_9(generic: &Iface) -> bool
    ensures { result ≡ breaks_9 generic.now }
{
    let subtype = &generic.parts.get().subtype;
    (is_control(generic) && !is_boolean(subtype))
        || (is_instance_path(generic) && !is_text(subtype))
}

/// Whether a generic is a control of checks or messages.
fn is_control(generic: &Iface) -> bool
    ensures { result ≡ is_control generic.now }
{
    let name = generic.identifier.name.as_slice();
    name == b"timingcheckson".as_slice() || name == b"xon".as_slice() || name == b"msgon".as_slice()
}

/// Whether a generic is the path of the instance.
fn is_instance_path(generic: &Iface) -> bool
    ensures { result ≡ is_instance_path generic.now }
{
    generic.identifier.name.as_slice() == b"instancepath".as_slice()
}

/// Whether the default of a generic that splits with this prefix is none of the good ones.
pub fn breaks_10_split(kind: Prefix, generic: &Iface) -> bool
    ensures { result ≡ breaks_10_split kind generic.now }
{
    let parts = generic.parts.get();
    let Some(value) = &parts.default else {
        return false;
    };
    if identifier_of(value).is_some() {
        return false;
    }
    match delay_type(&parts.subtype) {
        Some(delay_type) => !(is_delay_type_of(kind, delay_type) && is_delay(delay_type, value)),
        None => true,
    }
}

/// Whether a generic is a control with a default that is no identifier.
pub fn breaks_10_control(generic: &Iface) -> bool
    ensures { result ≡ breaks_10_control generic.now }
{
    match &generic.parts.get().default {
        Some(value) => is_control(generic) && !identifier_of(value).is_some(),
        None => false,
    }
}

/// Whether a generic is the path of the instance with a default that is neither an identifier nor a string of its type.
pub fn breaks_10_instance_path(generic: &Iface) -> bool
    ensures { result ≡ breaks_10_instance_path generic.now }
{
    let parts = generic.parts.get();
    match &parts.default {
        Some(value) => {
            is_instance_path(generic)
                && !(identifier_of(value).is_some()
                    || (is_string(value) && is_text(&parts.subtype)))
        }
        None => false,
    }
}
