//! The ports and internal signals of cells.

ghost use Rattle.std.specs.Prelude.{◌≡◌, ◌++◌, map, true, All, IfOk, OnOk};
ghost use Rattle.std.specs.Option.{option_map, option_map_or};
ghost use Rattle.vital_connections.specs.Objects.{lent};
ghost use Rattle.vital_netlist.specs.CellObjects as spec;
ghost use Rattle.vital_typed_cells.specs.Sound.{IsSound};
ghost use Rattle.vital_typed_cells.specs.SoundDeclarations.{is_sound_port, names_in_packages};
ghost use Rattle.vital_typed_cells.specs.Trees.{is_sound_level};
ghost use Rattle.vital_typed_cells.specs.PackageWorths.{level_in_packages};

use std::alloc::{AllocError, Global};
use vital_connections::Object;
use vital_logic::Level;
use vital_nodes::Shared;
use vital_objects::{Port, Signal};
use vital_operands::LevelExpr;
use vital_structure::Shape;
use vital_typed_cells::{PackageLevels, TypedCell, level_of};

/// The level of a default, if there is one.
fn default_level(
    alloc: Global,
    packages: &PackageLevels<'_>,
    default: &Option<Shared<LevelExpr>>,
) -> Result<Option<Level>, AllocError>
    requires { option_map_or (is_sound_level (names_in_packages packages.now)) default.now true ≡ true }
    ensures { IfOk result (λ level. level ≡ option_map (level_in_packages packages.now) default.now) }
{
    match default {
        Some(tree) => Ok(Some(level_of(alloc, packages, tree.get())?)),
        None => Ok(None),
    }
}

/// A port of a cell.
fn object_of_port<'a>(
    alloc: Global,
    packages: &PackageLevels<'_>,
    port: &'a Port,
) -> Result<Object<'a>, AllocError>
    requires { is_sound_port (names_in_packages packages.now) port.now ≡ true }
    ensures { IfOk result (λ object. lent object ≡ spec.object_of_port packages.now port.now) }
{
    let default = default_level(alloc, packages, &port.default)?;
    Ok(Object {
        name: port.name.as_slice(),
        place: port.place,
        mode: Some(port.mode),
        shape: Shape::Scalar,
        is_resolved: port.is_resolved,
        default,
    })
}

/// An internal signal of a cell.
fn object_of_internal(signal: &Signal) -> Object<'_>
    ensures { lent result ≡ spec.object_of_internal signal.now }
{
    Object {
        name: signal.name.as_slice(),
        place: signal.place,
        mode: None,
        shape: Shape::Scalar,
        is_resolved: signal.is_resolved,
        default: Some(signal.initial),
    }
}

/// The ports of a cell.
fn objects_of_ports<'a>(
    alloc: Global,
    packages: &PackageLevels<'_>,
    ports: &'a [Port],
) -> Result<Vec<Object<'a>>, AllocError>
    requires { All (λ p. is_sound_port (names_in_packages packages.now) p ≡ true) ports.now }
    ensures { IfOk result (λ objects. map lent objects.items ≡ map (spec.object_of_port packages.now) ports.now) }
{
    let mut objects = Vec::new(alloc);
    for port in ports {
        objects.push(object_of_port(alloc, packages, port)?)?;
    }
    Ok(objects)
}

/// Puts the internal signals of a cell at the end.
fn put_internals<'a>(objects: &mut Vec<Object<'a>>, signals: &'a [Signal]) -> Result<(), AllocError>
    ensures { OnOk result (map lent objects.new.items ≡ map lent objects.old.items ++ map spec.object_of_internal signals.now) }
{
    for signal in signals {
        objects.push(object_of_internal(signal))?;
    }
    Ok(())
}

/// The ports and internal signals of a cell that is sound, in order. These are its constants of packages. It takes time in proportion to its
/// ports and signals, and to their defaults with the tables that these name.
pub fn objects_of_cell<'a>(
    alloc: Global,
    packages: &PackageLevels<'_>,
    cell: &'a TypedCell,
) -> Result<Vec<Object<'a>>, AllocError>
    requires sound { IsSound cell.now }
    requires packages { packages.now ≡ cell.now.packages }
    ensures { IfOk result (λ objects. map lent objects.items ≡ spec.objects_of_cell cell.now) }
{
    let mut objects = objects_of_ports(alloc, packages, cell.ports.as_slice())?;
    put_internals(&mut objects, cell.signals.as_slice())?;
    Ok(objects)
}
