//! All that a netlist unit declares.

ghost use Rattle.std.specs.Prelude.{◌≡◌, [], ◌∷◌, ◌++◌, map, IfOk, OnOk};
ghost use Rattle.vital_structure.specs.Contents as spec;
ghost use Rattle.vital_structure.specs.Signals as of_signals;

use crate::content::{Content, content_of_decl, content_of_port};
use crate::unit_signal::UnitSignal;
use std::alloc::{AllocError, Global};
use vital_names::LibraryNames;
use vital_nodes::{Arch, Decl, Entity, Iface};

/// Puts what ports give at the end.
fn put_ports<'a>(
    contents: &mut Vec<Content<'a>>,
    library: &LibraryNames<'_>,
    ports: &'a [Iface],
) -> Result<(), AllocError>
    ensures { OnOk result (map spec.lent contents.new.items ≡ map spec.lent contents.old.items ++ map spec.content_of_port ports.now) }
{
    for port in ports {
        contents.push(content_of_port(library, port))?;
    }
    Ok(())
}

/// Puts what declarations give at the end.
fn put_declarations<'a>(
    contents: &mut Vec<Content<'a>>,
    library: &LibraryNames<'_>,
    declarations: &'a [Decl],
) -> Result<(), AllocError>
    ensures { OnOk result (map spec.lent contents.new.items ≡ map spec.lent contents.old.items ++ map spec.content_of_decl declarations.now) }
{
    for declaration in declarations {
        contents.push(content_of_decl(library, declaration))?;
    }
    Ok(())
}

/// What the ports and the declarations of an entity and an architecture give, in order.
pub fn contents_of<'a>(
    alloc: Global,
    library: &LibraryNames<'_>,
    entity: &'a Entity,
    arch: &'a Arch,
) -> Result<Vec<Content<'a>>, AllocError>
    ensures { IfOk result (λ contents. map spec.lent contents.items ≡ spec.contents entity.now arch.now) }
{
    let mut contents = Vec::new(alloc);
    put_ports(&mut contents, library, entity.ports.as_slice())?;
    put_declarations(&mut contents, library, entity.declarations.as_slice())?;
    put_declarations(&mut contents, library, arch.declarations.as_slice())?;
    Ok(contents)
}

/// Puts the port or the signal that it is at the end.
fn put_signal<'a>(
    signals: &mut Vec<UnitSignal<'a>>,
    content: &Content<'a>,
) -> Result<(), AllocError>
    ensures { OnOk result (map of_signals.lent signals.new.items ≡ map of_signals.lent signals.old.items ++ spec.signals_in (spec.lent content.now ∷ [])) }
{
    if let Some(signal) = content.signal() {
        signals.push(signal)?;
    }
    Ok(())
}

/// The ports and signals among contents.
pub fn signals_in<'a>(
    alloc: Global,
    contents: &[Content<'a>],
) -> Result<Vec<UnitSignal<'a>>, AllocError>
    ensures { IfOk result (λ found. map of_signals.lent found.items ≡ spec.signals_in (map spec.lent contents.now)) }
{
    let mut found = Vec::new(alloc);
    for content in contents {
        put_signal(&mut found, content)?;
    }
    Ok(found)
}
