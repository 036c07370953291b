//! The limits that the text of a cell passes itself.

ghost use Rattle.std.specs.Prelude.{◌≡◌, ◌++◌, IfOk, OnOk};
ghost use Rattle.std.specs.Option.{option_copied};
ghost use Rattle.vital_limits.specs.TextLimits as spec;
ghost use Rattle.vital_limits.specs.WithinLimits.{limits_within_all};
ghost use Rattle.vital_nodes.specs.Nodes.{parts_of_unit};
ghost use Rattle.vital_nodes.specs.declared.unit.Unit.TheVariants as units;

use crate::node_limits::put_if;
use crate::passed::{CellLimit, PassedLimit};
use crate::within_declarations::{put_within_decls, put_within_ifaces};
use crate::within_statements::put_within_concs;
use std::alloc::{AllocError, Global};
use vital_names::{CellNames, LibraryNames};
use vital_nodes::{Arch, Entity, Iface};

/// A cell has at most so many ports.
const MOST_PORTS: usize = 256;

/// The limits that the text of a cell passes, whatever clauses it breaks. It takes time in proportion to the text.
pub fn own_limits(alloc: Global, names: &CellNames<'_>) -> Result<Vec<PassedLimit>, AllocError>
    ensures { IfOk result (λ limits. limits.items ≡ spec.own_limits names.now) }
{
    let mut limits = Vec::new(alloc);
    let entity = names.entity();
    put_of_ports(&mut limits, entity.ports.as_slice())?;
    put_of_entity(&mut limits, names.library(), entity)?;
    put_of_arch(&mut limits, names.library(), names.arch())?;
    Ok(limits)
}

/// Puts the limit of ports at the end: at the first that is one too many.
fn put_of_ports(limits: &mut Vec<PassedLimit>, ports: &[Iface]) -> Result<(), AllocError>
    ensures { OnOk result (limits.new.items ≡ limits.old.items ++ spec.limits_of_ports ports.now) }
{
    put_at(limits, ports.get(MOST_PORTS))
}

/// Puts the limit of ports at the end, at the one too many, if there is one.
fn put_at(limits: &mut Vec<PassedLimit>, port: Option<&Iface>) -> Result<(), AllocError>
    ensures { OnOk result (limits.new.items ≡ limits.old.items ++ spec.limits_at (option_copied port.entry)) }
{
    match port {
        Some(port) => put_if(limits, true, CellLimit::Ports, port.identifier.place),
        None => Ok(()),
    }
}

/// Puts the limits of the parts of an entity and of all that they hold at the end.
#[tactic(auto, unfolding(vital_nodes::specs::Nodes::parts_of_unit))]
fn put_in_entity(
    limits: &mut Vec<PassedLimit>,
    library: &LibraryNames<'_>,
    entity: &Entity,
) -> Result<(), AllocError>
    ensures { OnOk result (limits.new.items ≡ limits.old.items ++ limits_within_all (parts_of_unit (units.Entity entity.now))) }
{
    put_within_ifaces(limits, entity.generics.as_slice())?;
    put_within_ifaces(limits, entity.ports.as_slice())?;
    put_within_decls(limits, library, entity.declarations.as_slice())?;
    put_within_concs(limits, library, entity.statements.as_slice())
}

/// Puts the limits of all nodes of an entity at the end.
fn put_of_entity(
    limits: &mut Vec<PassedLimit>,
    library: &LibraryNames<'_>,
    entity: &Entity,
) -> Result<(), AllocError>
    ensures { OnOk result (limits.new.items ≡ limits.old.items ++ spec.limits_of_unit (units.Entity entity.now)) }
{
    put_in_entity(limits, library, entity)
}

/// Puts the limits of the parts of an architecture and of all that they hold at the end.
#[tactic(auto, unfolding(vital_nodes::specs::Nodes::parts_of_unit))]
fn put_in_arch(
    limits: &mut Vec<PassedLimit>,
    library: &LibraryNames<'_>,
    arch: &Arch,
) -> Result<(), AllocError>
    ensures { OnOk result (limits.new.items ≡ limits.old.items ++ limits_within_all (parts_of_unit (units.Arch arch.now))) }
{
    put_within_decls(limits, library, arch.declarations.as_slice())?;
    put_within_concs(limits, library, arch.statements.as_slice())
}

/// Puts the limits of all nodes of an architecture at the end, if there is one.
fn put_of_arch(
    limits: &mut Vec<PassedLimit>,
    library: &LibraryNames<'_>,
    arch: Option<&Arch>,
) -> Result<(), AllocError>
    ensures { OnOk result (limits.new.items ≡ limits.old.items ++ spec.limits_of_arch (option_copied arch.entry)) }
{
    match arch {
        Some(arch) => put_in_arch(limits, library, arch),
        None => Ok(()),
    }
}
