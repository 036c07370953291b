//! What the constants of packages are worth that break no clause and pass no limit.

ghost use Rattle.std.specs.Prelude.{◌≡◌, IfOk};
ghost use Rattle.vital_limits.specs.ConstantLimits.{constant_limits as constant_limits', limits_at};
ghost use Rattle.vital_package_constants.specs.Breaches.{constant_breaches as constant_breaches'};
ghost use Rattle.vital_typed_cells.specs.Packages as spec;

use sqlite_items::Items;
use std::alloc::{AllocError, Global};
use vital_level1::Packages;
use vital_limits::ConstantLimits;
use vital_nodes::Shared;
use vital_objects::{PackageValue, package_values};
use vital_package_constants::breaches_at;

/// Whether the constant of a number passes a limit.
fn passes_limit(limits: &[ConstantLimits], number: usize) -> bool
    ensures { result ≡ spec.passes_any (limits_at limits.now number) }
{
    match limits.get(number) {
        Some(limits) => limits.rows || limits.columns || limits.delay,
        None => false,
    }
}

/// Whether the constant of a number breaks a clause or passes a limit.
fn is_unsound(packages: &Packages<'_>, number: usize) -> bool
    ensures { result ≡ spec.is_unsound (constant_breaches' packages.now) (constant_limits' packages.now) number }
{
    breaches_at(packages.breaches(), number).breaks_any() || passes_limit(packages.limits(), number)
}

/// One more owner of a value, if its constant breaks no clause and passes no limit.
fn share_if_sound(
    packages: &Packages<'_>,
    number: usize,
    value: &Option<Shared<PackageValue>>,
) -> Result<Option<Shared<PackageValue>>, AllocError>
    ensures { IfOk result (λ kept. kept ≡ spec.if_sound (constant_breaches' packages.now) (constant_limits' packages.now) (number, value.now)) }
{
    if is_unsound(packages, number) {
        return Ok(None);
    }
    match value {
        Some(value) => Ok(Some(value.share()?)),
        None => Ok(None),
    }
}

/// The values of constants, in their order: nothing where the constant breaks a clause or passes a limit.
fn kept_values(
    alloc: Global,
    packages: &Packages<'_>,
    values: &[Option<Shared<PackageValue>>],
) -> Result<Items<Option<Shared<PackageValue>>>, AllocError>
    ensures { IfOk result (λ kept. kept ≡ spec.kept_values (constant_breaches' packages.now) (constant_limits' packages.now) values.now) }
{
    let mut kept = Vec::new(alloc);
    for (number, value) in values.iter().enumerate() {
        kept.push(share_if_sound(packages, number, value)?)?;
    }
    Ok(Items::from_vec(kept))
}

/// What the constants of the packages of a library are worth, in their order: nothing where the constant breaks a clause or passes a limit,
/// or the value is not of its type.
#[tactic(auto, unfolding(crate::specs::Packages::sound_values))]
pub fn sound_values(
    alloc: Global,
    packages: &Packages<'_>,
) -> Result<Items<Option<Shared<PackageValue>>>, AllocError>
    ensures { IfOk result (λ values. values ≡ spec.sound_values packages.now) }
{
    let values = package_values(alloc, packages.library())?;
    kept_values(alloc, packages, values.as_slice())
}
