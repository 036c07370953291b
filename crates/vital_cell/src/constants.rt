//! What the constants of a cell and of packages are worth where the cell is compiled.

ghost use Rattle.std.specs.Prelude.{◌≡◌, ◌+◌, ◌∷◌, ◌++◌, [], ℕ, List, true, IfOk, OnOk, length, map, slice_get};
ghost use Rattle.std.specs.Option.{option_map, option_map_or};
ghost use Rattle.vital_typed_cells.specs.SoundDeclarations.{AreSoundPackages, is_sound_constant, is_sound_package};
ghost use Rattle.vital_typed_cells.specs.Trees.{is_sound_boolean, is_sound_level};
ghost use Rattle.vital_cell.specs.Scopes.{lent, named_worths, names_at, package_worths};
ghost use Rattle.vital_cell.specs.Sound.{tests};
ghost use Rattle.vital_cell.specs.Values as spec;
ghost use Rattle.vital_cell.specs.Worths.{lent as lent_worth};
ghost use Rattle.vital_typed_cells.specs.Expressions as typed;
ghost use Rattle.vital_typed_cells.specs.PackageWorths.{package_worth, packages_worth};

use crate::name_numbers::NameNumbers;
use crate::numbered_levels::numbered_level;
use crate::numbered_truths::{known_delay, known_time, numbered_truth};
use crate::scope::{ControlTruths, Scope};
use crate::variable_numbers::VariableNumbers;
use crate::worth::Worth;
use std::alloc::{AllocError, Global};
use vital_logic::Level;
use vital_machine::{Seen, level, truth};
use vital_nodes::Shared;
use vital_objects::{Constant, ConstantValue, PackageValue};
use vital_operands::{BooleanExpr, LevelExpr};

/// The level that an expression is worth in which nothing is named but constants.
pub fn known_level(scope: &Scope<'_, '_>, tree: &LevelExpr) -> Result<Level, AllocError>
    requires none { (lent scope.now).variables ≡ [] }
    requires sound { is_sound_level (tests (lent scope.now)) tree.now ≡ true }
    ensures { IfOk result (λ l. l ≡ typed.level (names_at (lent scope.now) [] []) tree.now) }
{
    let tree = numbered_level(scope, tree)?;
    let nothing = Seen {
        inputs: &[],
        slots: &[],
    };
    Ok(level(&tree, &nothing))
}

/// The truth value that an expression is worth in which nothing is named but constants.
fn known_truth(scope: &Scope<'_, '_>, tree: &BooleanExpr) -> Result<bool, AllocError>
    requires none { (lent scope.now).variables ≡ [] }
    requires sound { is_sound_boolean (tests (lent scope.now)) tree.now ≡ true }
    ensures { IfOk result (λ b. b ≡ typed.truth (names_at (lent scope.now) [] []) tree.now) }
{
    let tree = numbered_truth(scope, tree)?;
    let nothing = Seen {
        inputs: &[],
        slots: &[],
    };
    Ok(truth(&tree, &nothing))
}

/// What a constant of a cell is worth.
fn worth_of<'a>(scope: &Scope<'_, '_>, value: &'a ConstantValue) -> Result<Worth<'a>, AllocError>
    requires none { (lent scope.now).variables ≡ [] }
    requires sound { is_sound_constant (tests (lent scope.now)) value.now ≡ true }
    ensures { IfOk result (λ worth. lent_worth worth ≡ spec.worth_in (lent scope.now) value.now) }
{
    match value {
        ConstantValue::Level(tree) => Ok(Worth::Level(known_level(scope, tree)?)),
        ConstantValue::Boolean(tree) => Ok(Worth::Truth(known_truth(scope, tree)?)),
        ConstantValue::Time(tree) => Ok(Worth::Time(known_time(scope, tree))),
        ConstantValue::Delay(_, tree) => Ok(Worth::Delay(known_delay(scope, tree))),
        ConstantValue::Table(table) => Ok(Worth::Rows(table.rows())),
    }
}

/// What a constant of a package is worth.
fn package_worth<'a>(
    scope: &Scope<'_, '_>,
    value: &'a PackageValue,
) -> Result<Worth<'a>, AllocError>
    requires none { (lent scope.now).variables ≡ [] }
    requires sound { is_sound_package (tests (lent scope.now)) value.now ≡ true }
    ensures { IfOk result (λ worth. lent_worth worth ≡ spec.package_worth_in (lent scope.now) value.now) }
{
    match value {
        PackageValue::Level(tree) => Ok(Worth::Level(known_level(scope, tree)?)),
        PackageValue::Boolean(tree) => Ok(Worth::Truth(known_truth(scope, tree)?)),
        PackageValue::Time(time) => Ok(Worth::Time(*time)),
        PackageValue::Delay(delay) => Ok(Worth::Delay(*delay)),
        PackageValue::Table(table) => Ok(Worth::Rows(table.rows())),
    }
}

/// What a constant of a package is worth, if anything.
fn optional_worth<'a>(
    scope: &Scope<'_, '_>,
    value: &'a Option<Shared<PackageValue>>,
) -> Result<Option<Worth<'a>>, AllocError>
    requires none { (lent scope.now).variables ≡ [] }
    requires sound { option_map_or (is_sound_package (tests (lent scope.now))) value.now true ≡ true }
    ensures { IfOk result (λ worth. option_map lent_worth worth ≡ option_map (spec.package_worth_in (lent scope.now)) value.now) }
{
    match value {
        Some(value) => {
            let worth = package_worth(scope, value.get())?;
            Ok(Some(worth))
        }
        None => Ok(None),
    }
}

/// Puts what a constant of a package is worth behind those before it. It names only those, and the scope knows nothing else.
fn put_package<'a>(
    scope: &Scope<'_, 'a>,
    value: &'a Option<Shared<PackageValue>>,
    worths: &mut Vec<Option<Worth<'a>>>,
) -> Result<(), AllocError>
    requires bare { spec.with_packages (lent scope.now) [] ≡ spec.only_packages [] }
    requires sound { option_map_or (is_sound_package (tests (spec.only_packages (package_worths worths.old.items)))) value.now true ≡ true }
    ensures { OnOk result (package_worths worths.new.items
        ≡ package_worths worths.old.items ++ option_map (package_worth (package_worths worths.old.items)) value.now ∷ []) }
{
    let before = Scope {
        packages: worths.as_slice(),
        ..*scope
    };
    let worth = optional_worth(&before, value)?;
    worths.push(worth)?;
    Ok(())
}

/// Puts what the constants of packages are worth. Each names only those before it.
fn put_packages<'a>(
    scope: &Scope<'_, 'a>,
    values: &'a [Option<Shared<PackageValue>>],
    worths: &mut Vec<Option<Worth<'a>>>,
) -> Result<(), AllocError>
    requires bare { spec.with_packages (lent scope.now) [] ≡ spec.only_packages [] }
    requires none { worths.old.items ≡ [] }
    requires sound { AreSoundPackages [] values.now }
    ensures { OnOk result (package_worths worths.new.items ≡ packages_worth values.now) }
{
    for value in values {
        put_package(scope, value, worths)?;
    }
    Ok(())
}

/// What the constants of packages are worth, where these are no names and no variables. Each names only those before it.
fn worths_alone<'a>(
    alloc: Global,
    no_names: &NameNumbers<'a>,
    no_variables: &VariableNumbers<'a>,
    values: &'a [Option<Shared<PackageValue>>],
) -> Result<Vec<Option<Worth<'a>>>, AllocError>
    requires names { no_names.now ≡ [] }
    requires variables { no_variables.now ≡ [] }
    requires sound { AreSoundPackages [] values.now }
    ensures { IfOk result (λ worths. package_worths worths.items ≡ packages_worth values.now) }
{
    let scope = Scope {
        alloc,
        bits: &*no_names,
        variables: &*no_variables,
        constants: &*no_names,
        worths: &[],
        packages: &[],
        generics: &*no_names,
        delays: &[],
        controls: ControlTruths {
            timing_checks_on: true,
            x_on: true,
            msg_on: true,
        },
    };
    let mut worths = Vec::new(alloc);
    put_packages(&scope, values, &mut worths)?;
    Ok(worths)
}

/// What the constants of packages are worth, by their numbers. Each names only those before it.
pub fn package_worths<'a>(
    alloc: Global,
    values: &'a [Option<Shared<PackageValue>>],
) -> Result<Vec<Option<Worth<'a>>>, AllocError>
    requires { AreSoundPackages [] values.now }
    ensures { IfOk result (λ worths. package_worths worths.items ≡ packages_worth values.now) }
{
    let no_names = NameNumbers::new(alloc, Vec::new(alloc))?;
    let no_variables = VariableNumbers::new(alloc, &[])?;
    worths_alone(alloc, &no_names, &no_variables, values)
}

/// Puts what a constant is worth behind those before it. It names only those.
fn put_worth<'a>(
    scope: &Scope<'_, 'a>,
    constant: &'a Constant,
    worths: &mut Vec<Worth<'a>>,
) -> Result<(), AllocError>
    requires none { (lent scope.now).variables ≡ [] }
    requires next { slice_get scope.now.constants.now (length worths.old.items) ≡ Some constant.now.name }
    requires sound { is_sound_constant (tests (spec.with_constants (lent scope.now) (named_worths scope.now.constants.now worths.old.items))) constant.now.value ≡ true }
    ensures worths { OnOk result (named_worths scope.now.constants.now worths.new.items
        ≡ named_worths scope.now.constants.now worths.old.items
        ++ spec.named_worth (spec.with_constants (lent scope.now) (named_worths scope.now.constants.now worths.old.items)) constant.now ∷ []) }
    ensures longer { OnOk result (length worths.new.items ≡ length worths.old.items + 1) }
{
    let before = Scope {
        worths: worths.as_slice(),
        ..*scope
    };
    let worth = worth_of(&before, constant.value.get())?;
    worths.push(worth)?;
    Ok(())
}

/// Puts what constants are worth behind those before them. Each names only those before it.
pub fn put_worths<'a>(
    scope: &Scope<'_, 'a>,
    constants: &'a [Constant],
    worths: &mut Vec<Worth<'a>>,
) -> Result<(), AllocError>
    requires none { (lent scope.now).variables ≡ [] }
    requires names { (i : ℕ) (name : List ℕ) → slice_get (map (λ c. c.name) constants.now) i ≡ Some name → slice_get scope.now.constants.now (length worths.old.items + i) ≡ Some name }
    requires sound { spec.AreSoundIn (lent scope.now) (named_worths scope.now.constants.now worths.old.items) constants.now }
    ensures { OnOk result (named_worths scope.now.constants.now worths.new.items ≡ spec.worths_in (lent scope.now) (named_worths scope.now.constants.now worths.old.items) constants.now) }
{
    for constant in constants {
        put_worth(scope, constant, worths)?;
    }
    Ok(())
}
