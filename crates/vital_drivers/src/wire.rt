//! Calls of VitalWireDelay.

ghost use Rattle.std.specs.Prelude.{◌≡◌};
ghost use Rattle.std.specs.Option.{option_copied, option_map};
ghost use Rattle.vital_calls.specs.Calls as calls;
ghost use Rattle.vital_calls.specs.Formals as formals;
ghost use Rattle.vital_drivers.specs.Wires as spec;

use crate::named::means_generic;
use vital_calls::{Call, Formals, actual_of, formals_of_procedure, has_wrong_formals};
use vital_names::{CellNames, Procedure};
use vital_nodes::{Conc, Expr, Identifier, Item, actual, identifier_of};
use vital_statements::{
    bare_identifier, call_of_conc, means_read_port, means_signal, procedure_of,
};

/// A signal and the port that comes to it, by their names in a call.
#[derive(Clone, Copy)]
pub struct Wire<'a> {
    pub signal: &'a Identifier,
    pub port: &'a Identifier,
}

/// The formals of VitalWireDelay.
fn wire_delay() -> Formals
    ensures { formals.lent result ≡ spec.wire_delay }
{
    formals_of_procedure(Procedure::WireDelay, false)
}

/// The expression that is given to a formal of VitalWireDelay.
fn given<'a>(name: &[u8], items: &'a [Item]) -> Option<&'a Expr>
    ensures { option_copied result ≡ spec.given name.now items.now }
{
    actual(actual_of(items, wire_delay(), name)?)
}

/// The internal signal that is given to OutSig by its plain name.
fn signal_given<'a>(names: &CellNames<'_>, items: &'a [Item]) -> Option<&'a Identifier>
    ensures { option_copied result ≡ spec.signal_given names.now items.now }
{
    let identifier = identifier_of(given(b"outsig", items)?)?;
    if means_signal(names, None, identifier) {
        Some(identifier)
    } else {
        None
    }
}

/// The in or inout port that is given to InSig by its plain name.
fn port_given<'a>(names: &CellNames<'_>, items: &'a [Item]) -> Option<&'a Identifier>
    ensures { option_copied result ≡ spec.port_given names.now items.now }
{
    let identifier = identifier_of(given(b"insig", items)?)?;
    if means_read_port(names, None, identifier) {
        Some(identifier)
    } else {
        None
    }
}

/// Whether a name is that of a port behind tipd_.
fn is_tipd_name(port: &[u8], name: &[u8]) -> bool
    ensures { result ≡ spec.is_tipd_name port.now name.now }
{
    match name.strip_prefix(b"tipd_".as_slice()) {
        Some(rest) => rest == port,
        None => false,
    }
}

/// Whether an expression is the generic of a port's wire delay, in parentheses or not.
fn is_tipd(names: &CellNames<'_>, port: &Identifier, value: &Expr) -> bool
    ensures { result ≡ spec.is_tipd names.now port.now value.now }
{
    match bare_identifier(value) {
        Some(identifier) => {
            is_tipd_name(port.name.as_slice(), identifier.name.as_slice())
                && means_generic(names, identifier)
        }
        None => false,
    }
}

/// Whether the generic of a port's wire delay is given to TWire.
fn has_tipd(names: &CellNames<'_>, port: &Identifier, items: &[Item]) -> bool
    ensures { result ≡ spec.has_tipd names.now port.now items.now }
{
    match given(b"twire", items) {
        Some(value) => is_tipd(names, port, value),
        None => false,
    }
}

/// The wire of items that are matched to the formals.
fn wire_given<'a>(names: &CellNames<'_>, items: &'a [Item]) -> Option<Wire<'a>>
    ensures { option_map spec.lent result ≡ spec.wire_given names.now items.now }
{
    let signal = signal_given(names, items)?;
    let port = port_given(names, items)?;
    if has_tipd(names, port, items) {
        Some(Wire { signal, port })
    } else {
        None
    }
}

/// The wire of the items of a call of VitalWireDelay.
fn wire_of_items<'a>(names: &CellNames<'_>, items: &'a [Item]) -> Option<Wire<'a>>
    ensures { option_map spec.lent result ≡ spec.wire_of_items names.now items.now }
{
    if has_wrong_formals(wire_delay(), items) {
        return None;
    }
    wire_given(names, items)
}

/// The wire of a call outside of processes.
fn wire_of_call<'a>(names: &CellNames<'_>, call: Call<'a>) -> Option<Wire<'a>>
    ensures { option_map spec.lent result ≡ spec.wire_of_call names.now (calls.lent call.entry) }
{
    match procedure_of(names, None, call) {
        Some(Procedure::WireDelay) => wire_of_items(names, call.items),
        _ => None,
    }
}

/// The wire of a statement of a block that is a call of VitalWireDelay of an internal signal, an in or inout port and that port's
/// tipd generic.
pub fn wire_of<'a>(names: &CellNames<'_>, conc: &'a Conc) -> Option<Wire<'a>>
    ensures { option_map spec.lent result ≡ spec.wire_of names.now conc.now }
{
    wire_of_call(names, call_of_conc(conc)?)
}
