//! The levels that constants of packages are worth.

ghost use Rattle.std.specs.Prelude.{◌≡◌, ◌+◌, ◌<◌, [], length, take, None, OnOk};
ghost use Rattle.std.specs.List.{slice_index_or};
ghost use Rattle.std.specs.Option.{option_copied, option_map_or};
ghost use Rattle.vital_objects.specs.PackageValues.{value_at as value_at'};
ghost use Rattle.vital_typed_cells.specs.Expressions as worth;
ghost use Rattle.vital_typed_cells.specs.PackageWorths as spec;

use sqlite_items::Items;
use std::alloc::{AllocError, Global};
use std::marker::Model;
use vital_logic::Level;
use vital_nodes::Shared;
use vital_objects::PackageValue;
use vital_operands::ConstantName;

/// What the constants of packages are worth as levels, by their numbers. It is made once for a library. Contracts see it as the values of
/// the constants.
#[derive(Drop)]
pub struct PackageLevels<'a> {
    values: &'a [Option<Shared<PackageValue>>],
    /// U where a constant is worth no level.
    levels: Vec<Level>,
}

impl<'a> Model for PackageLevels<'a> {
    ghost use Rattle.std.specs.Prelude.{◌≡◌, List, Option};
    ghost use Rattle.std.specs.Coded.{codes};
    ghost use Rattle.vital_objects.specs.contracts.package_value.PackageValue as value;
    ghost use Rattle.vital_objects.specs.declared.package_value.PackageValue.{PackageValue};
    ghost use Rattle.vital_typed_cells.specs.PackageWorths.{package_levels};

    ghost Value = { List (Option PackageValue) };

    ghost coded = { Prim.hlevel (codes, value.the_row.coded) };

    ghost view = { λ p. p.values.now };

    ghost invariant = { λ p. p.levels.items ≡ package_levels p.values.now };
}

/// The rows of a value that is a table; none of any other.
fn rows_in(value: &PackageValue) -> &[Items<u8>]
    ensures { result.now ≡ spec.rows_in value.now }
{
    match value {
        PackageValue::Table(table) => table.rows(),
        _ => &[],
    }
}

/// The value of the constant of a number, if it has one.
fn value_at(values: &[Option<Shared<PackageValue>>], number: usize) -> Option<&PackageValue>
    ensures { option_copied result ≡ value_at' values.now number }
{
    match values.get(number) {
        Some(value) => match value {
            Some(value) => Some(value.get()),
            None => None,
        },
        None => None,
    }
}

/// The rows of the value of a number that is a table; none of any other.
fn rows_at(values: &[Option<Shared<PackageValue>>], number: usize) -> &[Items<u8>]
    ensures { result.now ≡ option_map_or spec.rows_in (value_at' values.now number) [] }
{
    match value_at(values, number) {
        Some(value) => rows_in(value),
        None => &[],
    }
}

impl<'a> PackageLevels<'a> {
    /// Those of no constant.
    #[tactic(auto, using(crate::proofs::PackageLemmas::no_levels))]
    pub(crate) fn none(alloc: Global) -> PackageLevels<'a>
        ensures { result ≡ [] }
    {
        PackageLevels {
            values: &[],
            levels: Vec::new(alloc),
        }
    }

    /// With the level of the constant of a number among these values, behind those of the constants before it.
    #[tactic(auto, using(crate::proofs::PackageLemmas::levels_put))]
    pub(crate) fn put(
        &mut self,
        values: &'a [Option<Shared<PackageValue>>],
        number: usize,
        level: Level,
    ) -> Result<(), AllocError>
        requires there { number < length values.now }
        requires before { self.old ≡ take number values.now }
        requires level { level ≡ spec.level_of_value self.old (slice_index_or values.now number None) }
        ensures { OnOk result (self.new ≡ take (number + 1) values.now) }
    {
        self.levels.push(level)?;
        self.values = &values[..number + 1];
        Ok(())
    }

    /// The level that a constant is worth: U if it is none of packages, or is worth no level.
    pub(crate) fn level(&self, name: &ConstantName) -> Level
        ensures { result ≡ worth.level_of (spec.of_packages (spec.packages_worth self.now) name.now) }
    {
        match name {
            ConstantName::Cell(_) => Level::U,
            ConstantName::Package(number) => match self.levels.get(*number) {
                Some(level) => *level,
                None => Level::U,
            },
        }
    }

    /// The rows that a constant is worth: none if it is none of packages, or is no table.
    #[tactic(auto, using(crate::proofs::PackageLemmas::rows))]
    pub(crate) fn rows(&self, name: &ConstantName) -> &[Items<u8>]
        ensures { result.now ≡ worth.rows_of (spec.of_packages (spec.packages_worth self.now) name.now) }
    {
        match name {
            ConstantName::Cell(_) => &[],
            ConstantName::Package(number) => rows_at(self.values, *number),
        }
    }
}
