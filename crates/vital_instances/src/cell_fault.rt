//! Whether cells are cells of Level 1.

ghost use Rattle.std.specs.Prelude.{Some, IfOk};
ghost use Rattle.vital_instances.specs.Judges.{IsFaultOf, IsSaidOf};

use std::alloc::{AllocError, Global};
use vital_base::Breach;
use vital_level0::one_first_breach;
use vital_level1::{CellError, CellLevel, Packages, verdict};
use vital_limits::PassedLimit;
use vital_nodes::{Arch, Entity};

/// Why a cell may not stand in a design.
#[derive(Clone, Copy, PartialEq, Eq)]
pub enum CellFault {
    /// It passes a limit, first there.
    Limit(PassedLimit),
    /// It passes none, and breaks a clause of VITAL, first there.
    Broken(Breach),
}

/// The fault of a cell, if it has one.
fn fault_found<'a>(
    alloc: Global,
    packages: &'a Packages<'a>,
    entity: &'a Entity,
    arch: &'a Arch,
) -> Result<Option<CellFault>, AllocError>
    ensures { IfOk result (λ fault. IsFaultOf (record { files = packages.now; entity = entity.now; arch = Some arch.now }) fault) }
{
    match verdict(alloc, packages, entity, Some(arch)) {
        Ok(CellLevel::Level1) => Ok(None),
        Ok(CellLevel::Level0(breach)) => Ok(Some(CellFault::Broken(breach))),
        Ok(CellLevel::Neither(breach)) => Ok(Some(CellFault::Broken(breach))),
        Err(CellError::Limit(limit)) => Ok(Some(CellFault::Limit(limit))),
        Err(CellError::NoMemory) => Err(AllocError),
    }
}

/// The fault of a cell, an entity with its architecture, in a library whose packages these are, if it has one. It takes time in proportion
/// to its text.
pub fn fault_of_cell<'a>(
    alloc: Global,
    packages: &'a Packages<'a>,
    entity: &'a Entity,
    arch: &'a Arch,
) -> Result<Option<CellFault>, AllocError>
    ensures { IfOk result (λ fault. IsSaidOf (record { files = packages.now; entity = entity.now; arch = Some arch.now }) fault) }
{
    one_first_breach();
    let fault = fault_found(alloc, packages, entity, arch)?;
    Ok(fault)
}
