//! The ports and generics that calls name.

ghost use Rattle.std.specs.Prelude.{◌≡◌, None};
ghost use Rattle.std.specs.Option.{option_copied};
ghost use Rattle.vital_drivers.specs.Named.{is_driven_mode, is_driven_port, is_generic};
ghost use Rattle.vital_names.specs.Declarations.{lent};
ghost use Rattle.vital_statements.specs.Operands.{means};

use vital_names::{CellNames, Declared, ProcessNames};
use vital_nodes::{Identifier, Mode};
use vital_statements::site_at;

/// Whether what is declared is a port that is driven: one with the mode out, inout or buffer.
fn is_driven_port(declared: Declared<'_>) -> bool
    ensures { result ≡ is_driven_port (lent declared.entry) }
{
    match declared {
        Declared::Port(port) => is_driven_mode(port.parts.get().mode),
        _ => false,
    }
}

/// Whether a port of a mode is driven.
pub fn is_driven_mode(mode: Mode) -> bool
    ensures { result ≡ is_driven_mode mode }
{
    matches!(mode, Mode::Out | Mode::Inout | Mode::Buffer)
}

/// Whether what is declared is a generic.
fn is_generic(declared: Declared<'_>) -> bool
    ensures { result ≡ is_generic (lent declared.entry) }
{
    matches!(declared, Declared::Generic(_))
}

/// Whether an identifier in a process, or outside of processes, means a port that is driven.
pub fn means_driven_port(
    names: &CellNames<'_>,
    process: Option<&ProcessNames<'_>>,
    identifier: &Identifier,
) -> bool
    ensures { result ≡ means is_driven_port names.now (option_copied process.entry) identifier.now }
{
    let site = site_at(process, identifier.place);
    match names.declared(identifier.name.as_slice(), &site) {
        Some(declared) => is_driven_port(declared),
        None => false,
    }
}

/// Whether an identifier outside of processes means a generic.
pub fn means_generic(names: &CellNames<'_>, identifier: &Identifier) -> bool
    ensures { result ≡ means is_generic names.now None identifier.now }
{
    let site = site_at(None, identifier.place);
    match names.declared(identifier.name.as_slice(), &site) {
        Some(declared) => is_generic(declared),
        None => false,
    }
}
