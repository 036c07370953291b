//! The signals and ports that statements name.

ghost use Rattle.std.specs.Prelude.{◌≡◌};
ghost use Rattle.std.specs.Option.{option_copied};
ghost use Rattle.vital_names.specs.Declarations.{lent};
ghost use Rattle.vital_statements.specs.Operands.{is_read_mode, is_read_port, is_signal, means};

use crate::site::site_at;
use vital_names::{CellNames, Declared, ProcessNames};
use vital_nodes::{Identifier, Mode, ObjectClass};

/// Whether what is declared is an internal signal.
fn is_signal(declared: Declared<'_>) -> bool
    ensures { result ≡ is_signal (lent declared.entry) }
{
    match declared {
        Declared::Object(object) => object.class == ObjectClass::Signal,
        _ => false,
    }
}

/// Whether it is a port that is read: one with the mode in or inout.
fn is_read_port(declared: Declared<'_>) -> bool
    ensures { result ≡ is_read_port (lent declared.entry) }
{
    match declared {
        Declared::Port(port) => is_read_mode(port.parts.get().mode),
        _ => false,
    }
}

/// Whether a port of a mode is read.
fn is_read_mode(mode: Mode) -> bool
    ensures { result ≡ is_read_mode mode }
{
    matches!(mode, Mode::In | Mode::Inout)
}

/// Whether an identifier in a process, or outside of processes, means an internal signal.
pub fn means_signal(
    names: &CellNames<'_>,
    process: Option<&ProcessNames<'_>>,
    identifier: &Identifier,
) -> bool
    ensures { result ≡ means is_signal names.now (option_copied process.entry) identifier.now }
{
    let site = site_at(process, identifier.place);
    match names.declared(identifier.name.as_slice(), &site) {
        Some(declared) => is_signal(declared),
        None => false,
    }
}

/// Whether an identifier in a process, or outside of processes, means a port that is read.
pub fn means_read_port(
    names: &CellNames<'_>,
    process: Option<&ProcessNames<'_>>,
    identifier: &Identifier,
) -> bool
    ensures { result ≡ means is_read_port names.now (option_copied process.entry) identifier.now }
{
    let site = site_at(process, identifier.place);
    match names.declared(identifier.name.as_slice(), &site) {
        Some(declared) => is_read_port(declared),
        None => false,
    }
}
