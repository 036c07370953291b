//! Calls of procedures.

ghost use Rattle.std.specs.Prelude.{◌≡◌};
ghost use Rattle.std.specs.Option.{option_copied};
ghost use Rattle.vital_nodes.specs.Calls as spec;

use crate::expr::{Item, Reference, Suffix};
use crate::stmt::Conc;

/// The name of the call that a concurrent statement is: one without a label, or one with a label and without maps, which
/// in a cell is a call and in a netlist an instance.
pub fn call(conc: &Conc) -> Option<&Reference>
    ensures { option_copied result ≡ spec.call conc.now }
{
    match conc {
        Conc::Call(_, name) => Some(name),
        Conc::Instance(_, instance) if instance.generics.is_empty() && instance.ports.is_empty() =>
            { Some(&instance.unit) }
        _ => None,
    }
}

/// The items of a call: those of the one parenthesis behind its identifier. There are none where anything else stands behind it.
pub fn call_items(name: &Reference) -> &[Item]
    ensures { result.now ≡ spec.call_items name.now }
{
    match name.suffixes.as_slice() {
        [Suffix::Items(items)] => items.as_slice(),
        _ => &[],
    }
}
