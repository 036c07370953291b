//! What the ports of the instances in the units of a design are associated with.

ghost use Rattle.std.specs.Prelude.{◌≡◌, ◌≤◌, [], length, map, take, IfOk};
ghost use Rattle.std.specs.Option.{option_copied, option_map_or, ForSome};
ghost use Rattle.vital_connections.specs.Objects.{lent};
ghost use Rattle.vital_instances.specs.Designs.{HasInstance};
ghost use Rattle.vital_library.specs.Units.{entities};
ghost use Rattle.vital_netlist.specs.Netlists as spec;
ghost use Rattle.vital_netlist.specs.DesignObjects as objects;

use crate::cell_laws::ports_of_cells_are_bits;
use crate::design_parts::DesignParts;
use crate::unit::{Unit, no_objects};
use crate::unit_table::unit_in;
use std::alloc::{AllocError, Global};
use vital_connections::{Connections, Object, associations_are_apart};
use vital_instances::{Instance, Position};

/// The ports of a unit, if there is one.
fn ports_of<'b, 'a>(unit: Option<&'b Unit<'a>>) -> &'b [Object<'a>]
    requires { ForSome (option_copied unit) (λ u. u.ports ≤ length u.objects.items) }
    ensures { result.now ≡ option_map_or (λ u. take u.ports u.objects.items) (option_copied unit.entry) [] }
{
    let Some(unit) = unit else {
        return no_objects();
    };
    unit.port_objects()
}

/// What the instances in an entity with these ports and signals are associated with.
fn connections_in<'a>(
    alloc: Global,
    parts: &DesignParts<'a>,
    units: &[Option<Unit<'a>>],
    entity: u32,
    signals: &[Object<'a>],
) -> Result<Vec<Connections>, AllocError>
    requires net_units { parts.now.net_units.now ≡ parts.now.library.now }
    requires good { spec.AreGood parts.now.library.now parts.now.instances.now }
    requires units { spec.HasUnits parts.now.library.now parts.now.instances.now units.now }
    requires found { HasInstance parts.now.instances.now entity }
    requires signals { map lent signals.now ≡ objects.objects_at parts.now.library.now entity }
    ensures { IfOk result (λ kept. spec.AreKept parts.now.library.now parts.now.instances.now entity kept.items) }
{
    associations_are_apart();
    ports_of_cells_are_bits();
    let mut found = Vec::new(alloc);
    for child in parts.net_units.children(entity) {
        let unit = unit_in(units, child.entity);
        let ports = ports_of(unit);
        let associations = child.associations.as_slice();
        let connections = Connections::new(alloc, ports, signals, associations)?;
        found.push(connections)?;
    }
    Ok(found)
}

/// What the instances in an entity are associated with, if it is kept.
fn connections_of_entity<'a>(
    alloc: Global,
    parts: &DesignParts<'a>,
    units: &[Option<Unit<'a>>],
    entity: u32,
) -> Result<Vec<Connections>, AllocError>
    requires net_units { parts.now.net_units.now ≡ parts.now.library.now }
    requires good { spec.AreGood parts.now.library.now parts.now.instances.now }
    requires units { spec.HasUnits parts.now.library.now parts.now.instances.now units.now }
    ensures { IfOk result (λ kept. spec.AreKept parts.now.library.now parts.now.instances.now entity kept.items) }
{
    match unit_in(units, entity) {
        Some(unit) => connections_in(alloc, parts, units, entity, &unit.objects),
        None => Ok(Vec::new(alloc)),
    }
}

/// What the instances in each entity are associated with, where these are the units of all instances.
pub fn connections_of<'a>(
    alloc: Global,
    parts: &DesignParts<'a>,
    units: &[Option<Unit<'a>>],
) -> Result<Vec<Vec<Connections>>, AllocError>
    requires net_units { parts.now.net_units.now ≡ parts.now.library.now }
    requires good { spec.AreGood parts.now.library.now parts.now.instances.now }
    requires units { spec.HasUnits parts.now.library.now parts.now.instances.now units.now }
    ensures { IfOk result (λ kept. spec.HasConnections parts.now.library.now parts.now.instances.now (length (entities parts.now.library.now)) (map (λ ks. ks.items) kept.items)) }
{
    let mut found = Vec::new(alloc);
    for entity in 0..parts.library.entity_count() {
        let connections = connections_of_entity(alloc, parts, units, entity)?;
        found.push(connections)?;
    }
    Ok(found)
}

/// The position of the instance of a number. The top has none.
pub fn position_of(instances: &[Instance], number: usize) -> Option<Position>
    ensures { result ≡ spec.position_of instances.now number }
{
    match instances.get(number) {
        Some(instance) => instance.position,
        None => None,
    }
}

/// What the instance of a number in an entity is associated with, if it is kept.
fn kept_at(connections: &[Vec<Connections>], entity: u32, child: usize) -> Option<&Connections>
    ensures { option_copied result ≡ spec.kept_at (map (λ ks. ks.items) connections.now) entity child }
{
    match connections.get(entity as usize) {
        Some(found) => found.get(child),
        None => None,
    }
}

/// What the instance of a number is associated with, if it is kept.
pub fn kept_of<'b>(
    instances: &[Instance],
    connections: &'b [Vec<Connections>],
    number: usize,
) -> Option<&'b Connections>
    ensures { option_copied result ≡ spec.kept_of instances.now (map (λ ks. ks.items) connections.now) number }
{
    let Some(position) = position_of(instances, number) else {
        return None;
    };
    match instances.get(position.parent) {
        Some(parent) => kept_at(connections, parent.entity, position.child),
        None => None,
    }
}
