//! The level of a cell.

ghost use Rattle.std.specs.Prelude.{◌≡◌, Option, IfOk};
ghost use Rattle.std.specs.Option.{option_copied};
ghost use Rattle.vital_base.specs.declared.breach.Breach.{Breach as Breach'};
ghost use Rattle.vital_level0.specs.Breaches.{IsFirst};
ghost use Rattle.vital_level1.specs.Breaches.{first_breach as first_breach'};
ghost use Rattle.vital_level1.specs.Verdicts as spec;
ghost use Rattle.vital_level1.specs.Verdicts.{IsVerdict};

use crate::breaches::first_breach;
use crate::packages::Packages;
use std::alloc::{AllocError, Global};
use vital_base::Breach;
use vital_level0::breaches0;
use vital_limits::{PassedLimit, cell_limit};
use vital_names::CellNames;
use vital_nodes::{Arch, Entity};
use vital_uses::{CellStatements, CellUses};

/// The level of a cell (IEEE 1076.4): the greatest whose clauses it meets, and else the first breach.
#[derive(Clone, Copy, PartialEq, Eq)]
pub enum CellLevel {
    Level1,
    /// It meets Level 0, and breaks Level 1 first there.
    Level0(Breach),
    /// It breaks Level 0 first there.
    Neither(Breach),
}

/// Why a cell has no verdict.
#[derive(Clone, Copy, PartialEq, Eq)]
pub enum CellError {
    /// It passes a limit, first there.
    Limit(PassedLimit),
    NoMemory,
}

/// The level of a cell with this entity whose first breach of Level 1 is this.
fn level_of(alloc: Global, entity: &Entity, first: Option<Breach>) -> Result<CellLevel, AllocError>
    ensures { IfOk result (λ level. (first_0 : Option Breach') × IsFirst entity.now first_0 × (level ≡ spec.level_by first_0 first)) }
{
    let breaches = breaches0(alloc, entity)?;
    match (breaches.as_slice().first(), first) {
        (Some(breach), _) => Ok(CellLevel::Neither(*breach)),
        (None, Some(breach)) => Ok(CellLevel::Level0(breach)),
        (None, None) => Ok(CellLevel::Level1),
    }
}

/// The level of a cell that passes no limit, whose first breach of Level 1 is this.
fn level_found<'a>(
    alloc: Global,
    names: &CellNames<'a>,
    first: Option<Breach>,
) -> Result<CellLevel, AllocError>
    requires { first ≡ first_breach' names.now }
    ensures { IfOk result (λ level. spec.IsLevel names.now level) }
{
    let level = level_of(alloc, names.entity(), first)?;
    Ok(level)
}

/// The level of a cell in a library whose packages these are, or the first limit that it passes. It takes time in proportion to the
/// text of the cell.
fn verdict_of<'a>(
    alloc: Global,
    packages: &Packages<'_>,
    names: &'a CellNames<'a>,
    statements: &'a CellStatements<'a>,
) -> Result<CellLevel, CellError>
    requires packages { packages.now ≡ names.now.files }
    requires statements { statements.now ≡ names.now.arch }
    ensures { IsVerdict names.now result }
{
    let Ok(uses) = CellUses::new(alloc, names, statements) else {
        return Err(CellError::NoMemory);
    };
    let Ok(limit) = cell_limit(alloc, &uses, statements, packages.limits()) else {
        return Err(CellError::NoMemory);
    };
    match limit {
        Some(limit) => Err(CellError::Limit(limit)),
        None => {
            let Ok(first) = first_breach(alloc, packages, names, statements, &uses) else {
                return Err(CellError::NoMemory);
            };
            match level_found(alloc, names, first) {
                Ok(level) => Ok(level),
                Err(_) => Err(CellError::NoMemory),
            }
        }
    }
}

/// The level of a cell, an entity with one of its architectures or none, in a library whose packages these are, or the first limit
/// that it passes. It takes time in proportion to its text.
pub fn verdict<'a>(
    alloc: Global,
    packages: &'a Packages<'a>,
    entity: &'a Entity,
    arch: Option<&'a Arch>,
) -> Result<CellLevel, CellError>
    ensures { IsVerdict (record { files = packages.now; entity = entity.now; arch = option_copied arch.entry }) result }
{
    let Ok(names) = CellNames::new(alloc, packages.library(), entity, arch) else {
        return Err(CellError::NoMemory);
    };
    let Ok(statements) = CellStatements::new(alloc, arch) else {
        return Err(CellError::NoMemory);
    };
    verdict_of(alloc, packages, &names, &statements)
}
