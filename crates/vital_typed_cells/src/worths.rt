//! What constants of packages, and expressions that name nothing else, are worth as levels.

ghost use Rattle.std.specs.Prelude.{◌≡◌, ◌+◌, ◌<◌, [], length, take, true, IfOk, OnOk};
ghost use Rattle.std.specs.Option.{option_map_or};
ghost use Rattle.vital_typed_cells.specs.SoundDeclarations.{AreSoundPackages, is_sound_package, names_in_packages};
ghost use Rattle.vital_typed_cells.specs.Trees.{is_sound_level};
ghost use Rattle.vital_typed_cells.specs.PackageWorths as spec;

use crate::level::level;
use crate::package_levels::PackageLevels;
use std::alloc::{AllocError, Global};
use vital_logic::Level;
use vital_nodes::Shared;
use vital_objects::PackageValue;
use vital_operands::LevelExpr;

/// The level that a sound expression is worth in which nothing is named but constants of packages, as the default of a port of a cell
/// (IEEE 1076-1993, 4.3.1.2). It takes time in proportion to the expression and the tables that it names, a table once for each call.
#[tactic(auto, unfolding(crate::specs::SoundTrees::is_sound_tree))]
pub fn level_of(
    alloc: Global,
    packages: &PackageLevels<'_>,
    tree: &LevelExpr,
) -> Result<Level, AllocError>
    requires { is_sound_level (names_in_packages packages.now) tree.now ≡ true }
    ensures { IfOk result (λ l. l ≡ spec.level_in_packages packages.now tree.now) }
{
    level(alloc, packages, tree)
}

/// The level that a value is worth; U if it is none.
fn level_of_value(
    alloc: Global,
    packages: &PackageLevels<'_>,
    value: &Option<Shared<PackageValue>>,
) -> Result<Level, AllocError>
    requires { option_map_or (is_sound_package (names_in_packages packages.now)) value.now true ≡ true }
    ensures { IfOk result (λ l. l ≡ spec.level_of_value packages.now value.now) }
{
    match value {
        Some(value) => match value.get() {
            PackageValue::Level(tree) => level_of(alloc, packages, tree),
            _ => Ok(Level::U),
        },
        None => Ok(Level::U),
    }
}

/// Puts the level of the constant of a number, behind those of the constants before it.
#[tactic(auto, using(crate::proofs::PackageLemmas::value_read))]
fn put_level<'a>(
    alloc: Global,
    known: &mut PackageLevels<'a>,
    values: &'a [Option<Shared<PackageValue>>],
    number: usize,
) -> Result<(), AllocError>
    requires sound { AreSoundPackages [] values.now }
    requires there { number < length values.now }
    requires before { known.old ≡ take number values.now }
    ensures { OnOk result (known.new ≡ take (number + 1) values.now) }
{
    let level = level_of_value(alloc, known, &values[number])?;
    known.put(values, number, level)
}

/// What the constants of packages are worth as levels, where each that has a value names only those before it. It takes time in proportion to
/// the values and the tables that they name, a table once for each call.
pub fn levels_of_packages<'a>(
    alloc: Global,
    values: &'a [Option<Shared<PackageValue>>],
) -> Result<PackageLevels<'a>, AllocError>
    requires { AreSoundPackages [] values.now }
    ensures { IfOk result (λ levels. levels ≡ values.now) }
{
    let mut known = PackageLevels::none(alloc);
    for number in 0..values.len() {
        put_level(alloc, &mut known, values, number)?;
    }
    Ok(known)
}
