//! The breaches of an entity as they are found, before they are put in order.

ghost use Rattle.std.specs.Prelude.{◌≡◌, ◌++◌, false, IfOk, OnOk};
ghost use Rattle.std.specs.List.{flat_map, list_any};
ghost use Rattle.vital_level0.specs.Clauses.{is_level_0};
ghost use Rattle.vital_level0.specs.Found as spec;

use crate::declaration::is_level_0;
use crate::generic_clauses::{
    begins_as_timing, breaks_8, breaks_9, breaks_10_control, breaks_10_instance_path,
    breaks_10_split,
};
use crate::parts::Parts;
use crate::port_clauses::{breaks_4, breaks_5, breaks_6};
use crate::port_index::PortIndex;
use crate::split::split_name;
use std::alloc::{AllocError, Global};
use vital_base::{Breach, Clause, Place};
use vital_nodes::{Conc, Decl, Entity, HasPlace, Iface};

/// The breaches of an entity. Each part of it is looked at once.
pub fn of_entity(alloc: Global, entity: &Entity) -> Result<Vec<Breach>, AllocError>
    ensures { IfOk result (λ found. found.items ≡ spec.of_entity entity.now) }
{
    let mut found = Vec::new(alloc);
    let ports = PortIndex::new(alloc, entity)?;
    put_generics(&mut found, &ports, entity.generics.as_slice())?;
    put_ports(&mut found, entity.ports.as_slice())?;
    let name = entity.identifier.name.as_slice();
    let is_specified = put_declarations(&mut found, name, entity.declarations.as_slice())?;
    put_if(&mut found, !is_specified, 1, entity.identifier.place)?;
    put_statements(&mut found, entity.statements.as_slice())?;
    Ok(found)
}

/// Adds the breach of L0.`number` at a place, if it is one.
fn put_if(
    found: &mut Vec<Breach>,
    is_broken: bool,
    number: u8,
    place: Place,
) -> Result<(), AllocError>
    ensures { OnOk result (found.new.items ≡ found.old.items ++ spec.breach_if is_broken number place) }
{
    if is_broken {
        let clause = Clause { level: 0, number };
        found.push(Breach { place, clause })?;
    }
    Ok(())
}

/// Adds the breaches of generics.
fn put_generics(
    found: &mut Vec<Breach>,
    ports: &PortIndex<'_>,
    generics: &[Iface],
) -> Result<(), AllocError>
    ensures { OnOk result (found.new.items ≡ found.old.items ++ flat_map (spec.of_generic ports.now) generics.now) }
{
    for generic in generics {
        let parts = split_name(generic.identifier.name.as_slice(), ports);
        put_generic(found, generic, parts)?;
    }
    Ok(())
}

/// Adds the breaches of a generic whose name has these parts.
fn put_generic(
    found: &mut Vec<Breach>,
    generic: &Iface,
    parts: Option<Parts>,
) -> Result<(), AllocError>
    ensures { OnOk result (found.new.items ≡ found.old.items ++ spec.of_parts generic.now parts) }
{
    let place = generic.identifier.place;
    put_if(found, is_unsplit(generic, parts), 7, place)?;
    put_if(found, has_wrong_type(generic, parts), 8, place)?;
    put_if(found, breaks_9(generic), 9, place)?;
    put_if(found, has_wrong_default(generic, parts), 10, place)
}

/// Whether a generic is named as a timing generic, and its name does not split.
fn is_unsplit(generic: &Iface, parts: Option<Parts>) -> bool
    ensures { result ≡ spec.is_unsplit generic.now parts }
{
    begins_as_timing(generic.identifier.name.as_slice()) && parts.is_none()
}

/// Whether a generic splits and has a type that it may not have.
fn has_wrong_type(generic: &Iface, parts: Option<Parts>) -> bool
    ensures { result ≡ spec.has_wrong_type generic.now parts }
{
    match parts {
        Some(parts) => breaks_8(parts.kind, generic),
        None => false,
    }
}

/// Whether a generic splits and has a default that it may not have.
fn has_wrong_delay(generic: &Iface, parts: Option<Parts>) -> bool
    ensures { result ≡ spec.has_wrong_delay generic.now parts }
{
    match parts {
        Some(parts) => breaks_10_split(parts.kind, generic),
        None => false,
    }
}

/// Whether a timing generic, a control or an instance path has a default that it may not have.
fn has_wrong_default(generic: &Iface, parts: Option<Parts>) -> bool
    ensures { result ≡ spec.has_wrong_default generic.now parts }
{
    has_wrong_delay(generic, parts)
        || breaks_10_control(generic)
        || breaks_10_instance_path(generic)
}

/// Adds the breaches of ports.
fn put_ports(found: &mut Vec<Breach>, ports: &[Iface]) -> Result<(), AllocError>
    ensures { OnOk result (found.new.items ≡ found.old.items ++ flat_map spec.of_port ports.now) }
{
    for port in ports {
        put_port(found, port)?;
    }
    Ok(())
}

/// Adds the breaches of a port.
fn put_port(found: &mut Vec<Breach>, port: &Iface) -> Result<(), AllocError>
    ensures { OnOk result (found.new.items ≡ found.old.items ++ spec.of_port port.now) }
{
    let place = port.identifier.place;
    put_if(found, breaks_4(port), 4, place)?;
    put_if(found, breaks_5(port), 5, place)?;
    put_if(found, breaks_6(port), 6, place)
}

/// Adds the breaches of the declarations of an entity of this name, and answers whether its specification stands among them.
fn put_declarations(
    found: &mut Vec<Breach>,
    name: &[u8],
    declarations: &[Decl],
) -> Result<bool, AllocError>
    ensures breaches { OnOk result (found.new.items ≡ found.old.items ++ spec.of_declarations name.now false declarations.now) }
    ensures specified { IfOk result (λ is_specified. is_specified ≡ list_any (is_level_0 name.now) declarations.now) }
{
    let mut is_specified = false;
    for declaration in declarations {
        let is_specification = is_level_0(name, declaration);
        put_if(
            found,
            is_specified || !is_specification,
            2,
            declaration.place(),
        )?;
        is_specified = is_specified || is_specification;
    }
    Ok(is_specified)
}

/// Adds the breaches of statements.
fn put_statements(found: &mut Vec<Breach>, statements: &[Conc]) -> Result<(), AllocError>
    ensures { OnOk result (found.new.items ≡ found.old.items ++ flat_map spec.of_statement statements.now) }
{
    for statement in statements {
        put_if(found, true, 3, statement.place())?;
    }
    Ok(())
}
