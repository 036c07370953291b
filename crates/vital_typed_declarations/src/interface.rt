//! Where the defaults of generics and ports are not of their types.

ghost use Rattle.std.specs.Prelude.{◌≡◌, ◌++◌, map, OnOk};
ghost use Rattle.std.specs.List.{flat_map};
ghost use Rattle.vital_expr.specs.Seen.{lent};
ghost use Rattle.vital_names.specs.Sites as sites;
ghost use Rattle.vital_typed_declarations.specs.Declarations as spec;
ghost use Rattle.vital_uses.specs.Nodes.{sited_interface};

use crate::asked_type::asked_of_port;
use crate::sited::{SitedDeclaration, sited_declarations};
use crate::value::{read_generic_default, read_value_if_given};
use std::alloc::{AllocError, Global};
use vital_base::Place;
use vital_expr::Reader;
use vital_names::{CellNames, CellUnit, Site};
use vital_nodes::Iface;
use vital_operands::{Faults, Position};

/// What the default of a generic or a port is read by.
fn reader_at<'a>(
    alloc: Global,
    names: &'a CellNames<'a>,
    faults: &'a Faults<'a>,
    site: Site<'a>,
) -> Reader<'a>
    ensures { lent result ≡ spec.in_interface names.now faults.now (sites.lent site.entry) }
{
    Reader {
        alloc,
        position: Position::Interface(names, site),
        faults,
    }
}

/// Puts where the default of a generic is not of its type at the end.
fn put_broken_generic<'a>(
    alloc: Global,
    names: &'a CellNames<'a>,
    faults: &'a Faults<'a>,
    generic: &SitedDeclaration<'a, Iface>,
    broken: &mut Vec<Place>,
) -> Result<(), AllocError>
    ensures { OnOk result (broken.new.items ≡ broken.old.items ++ spec.broken_generic names.now faults.now (spec.lent_sited generic.now)) }
{
    if !generic.declaration.is_last {
        return Ok(());
    }
    let reader = reader_at(alloc, names, faults, generic.site);
    read_generic_default(&reader, generic.declaration, broken)?;
    Ok(())
}

/// Puts where the defaults of generics are not of their types at the end.
fn put_broken_generics<'a>(
    alloc: Global,
    names: &'a CellNames<'a>,
    faults: &'a Faults<'a>,
    generics: &[SitedDeclaration<'a, Iface>],
    broken: &mut Vec<Place>,
) -> Result<(), AllocError>
    ensures { OnOk result (broken.new.items ≡ broken.old.items ++ flat_map (spec.broken_generic names.now faults.now) (map spec.lent_sited generics.now)) }
{
    for generic in generics {
        put_broken_generic(alloc, names, faults, generic, broken)?;
    }
    Ok(())
}

/// Puts where the default of a port is not of its type at the end.
fn put_broken_port<'a>(
    alloc: Global,
    names: &'a CellNames<'a>,
    faults: &'a Faults<'a>,
    port: &SitedDeclaration<'a, Iface>,
    broken: &mut Vec<Place>,
) -> Result<(), AllocError>
    ensures { OnOk result (broken.new.items ≡ broken.old.items ++ spec.broken_port names.now faults.now (spec.lent_sited port.now)) }
{
    if !port.declaration.is_last {
        return Ok(());
    }
    let reader = reader_at(alloc, names, faults, port.site);
    let asked = asked_of_port(names.library(), port.declaration);
    let default = &port.declaration.parts.get().default;
    read_value_if_given(&reader, asked, default, broken)?;
    Ok(())
}

/// Puts where the defaults of ports are not of their types at the end.
fn put_broken_ports<'a>(
    alloc: Global,
    names: &'a CellNames<'a>,
    faults: &'a Faults<'a>,
    ports: &[SitedDeclaration<'a, Iface>],
    broken: &mut Vec<Place>,
) -> Result<(), AllocError>
    ensures { OnOk result (broken.new.items ≡ broken.old.items ++ flat_map (spec.broken_port names.now faults.now) (map spec.lent_sited ports.now)) }
{
    for port in ports {
        put_broken_port(alloc, names, faults, port, broken)?;
    }
    Ok(())
}

/// Puts where the defaults of the generics and ports of a cell are not of their types at the end. It takes time in proportion to
/// them.
pub fn put_broken_in_interface<'a>(
    alloc: Global,
    names: &'a CellNames<'a>,
    faults: &'a Faults<'a>,
    broken: &mut Vec<Place>,
) -> Result<(), AllocError>
    ensures { OnOk result (broken.new.items ≡ broken.old.items ++ (flat_map (spec.broken_generic names.now faults.now) (sited_interface names.now.entity.generics) ++ flat_map (spec.broken_port names.now faults.now) (sited_interface names.now.entity.ports))) }
{
    let entity = names.entity();
    let unit = CellUnit::Entity;
    let generics = sited_declarations(alloc, unit, None, entity.generics.as_slice())?;
    put_broken_generics(alloc, names, faults, &generics, broken)?;
    let ports = sited_declarations(alloc, unit, None, entity.ports.as_slice())?;
    put_broken_ports(alloc, names, faults, &ports, broken)
}
