//! The units of all instances of a design.

ghost use Rattle.std.specs.Prelude.{◌≡◌, ◌<◌, ◌∷◌, ◌++◌, [], length, slice_set, List, All, Some, IfOk, OnOk};
ghost use Rattle.std.specs.Option.{option_copied};
ghost use Rattle.vital_netlist.specs.Cells.{cells};
ghost use Rattle.vital_instances.specs.Designs.{HasInstance};
ghost use Rattle.vital_instances.specs.declared.instance.Instance.{Instance as Instance'};
ghost use Rattle.vital_library.specs.Units.{entities};
ghost use Rattle.vital_netlist.specs.Netlists as spec;

use crate::design_parts::DesignParts;
use crate::unit::Unit;
use std::alloc::{AllocError, Global};
use vital_instances::{Instance, unit_at};
use vital_library::Library;
use vital_typed_cells::PackageLevels;

/// The unit of an entity, if it is kept.
pub fn unit_in<'b, 'a>(units: &'b [Option<Unit<'a>>], entity: u32) -> Option<&'b Unit<'a>>
    ensures { option_copied result ≡ spec.unit_in units.now entity }
{
    match units.get(entity as usize) {
        Some(unit) => unit.as_ref(),
        None => None,
    }
}

/// The unit of the instance of a number, if it is kept.
pub fn unit_of<'b, 'a>(
    instances: &[Instance],
    units: &'b [Option<Unit<'a>>],
    number: usize,
) -> Option<&'b Unit<'a>>
    ensures { option_copied result ≡ spec.unit_of instances.now units.now number }
{
    match instances.get(number) {
        Some(instance) => unit_in(units, instance.entity),
        None => None,
    }
}

/// No unit is kept.
fn no_units<'a>(alloc: Global, library: &Library) -> Result<Vec<Option<Unit<'a>>>, AllocError>
    ensures { IfOk result (λ units. spec.HasUnits library.now [] units.items) }
{
    let mut units = Vec::new(alloc);
    for _ in 0..library.entity_count() {
        units.push(None)?;
    }
    Ok(units)
}

/// Puts the unit of an entity.
fn put<'a>(units: &mut Vec<Option<Unit<'a>>>, entity: u32, unit: Unit<'a>)
    requires { entity < length units.old.items }
    ensures { units.new.items ≡ slice_set units.old.items entity (Some unit.entry) }
{
    units[entity as usize] = Some(unit);
}

/// Puts the unit of an instance, if it is not there.
fn put_unit<'a>(
    alloc: Global,
    units: &mut Vec<Option<Unit<'a>>>,
    parts: &DesignParts<'a>,
    packages: &PackageLevels<'_>,
    instance: &Instance,
) -> Result<(), AllocError>
    requires cells { parts.now.cells.now ≡ record { files = parts.now.library.now; instances = parts.now.instances.now } }
    requires good { spec.AreGood parts.now.library.now parts.now.instances.now }
    requires packages { All (λ c. c.packages ≡ packages.now) (cells parts.now.library.now parts.now.instances.now) }
    requires found { HasInstance parts.now.instances.now instance.now.entity }
    requires room { length units.old.items ≡ length (entities parts.now.library.now) }
    ensures { OnOk result ((is : List Instance') → spec.HasUnits parts.now.library.now is units.old.items → spec.HasUnits parts.now.library.now (is ++ instance.now ∷ []) units.new.items) }
{
    if unit_in(units, instance.entity).is_some() {
        return Ok(());
    }
    let Some(unit) = unit_at(parts.library, instance.entity) else {
        unreachable!()
    };
    let unit = Unit::new(
        alloc,
        parts.names,
        parts.cells,
        packages,
        instance.entity,
        unit,
    )?;
    put(units, instance.entity, unit);
    Ok(())
}

/// The units of all instances, each by its entity.
pub fn units_of<'a>(
    alloc: Global,
    parts: &DesignParts<'a>,
) -> Result<Vec<Option<Unit<'a>>>, AllocError>
    requires cells { parts.now.cells.now ≡ record { files = parts.now.library.now; instances = parts.now.instances.now } }
    requires good { spec.AreGood parts.now.library.now parts.now.instances.now }
    ensures { IfOk result (λ units. spec.HasUnits parts.now.library.now parts.now.instances.now units.items) }
{
    let packages = parts.cells.package_levels(alloc)?;
    let mut units = no_units(alloc, parts.library)?;
    for instance in parts.instances {
        put_unit(alloc, &mut units, parts, &packages, instance)?;
    }
    Ok(units)
}
