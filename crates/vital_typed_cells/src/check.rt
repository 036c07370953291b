//! The check of a cell.

ghost use Rattle.std.specs.Option.{option_copied};
ghost use Rattle.std.specs.Prelude.{All};
ghost use Rattle.vital_as_read.specs.Libraries.{IsCellOfLibrary, IsFromText};
ghost use Rattle.vital_typed_cells.specs.Answers.{IsAnswer};

use crate::checked::Checked;
use crate::laws::typed_is_sound;
use crate::typed_cell::read_typed_cell;
use crate::typed_packages::TypedPackages;
use std::alloc::Global;
use vital_as_read::cells_are_as_read;
use vital_base::Breach;
use vital_level1::{CellError, CellLevel, verdict};
use vital_limits::PassedLimit;
use vital_nodes::{Arch, Entity};

/// Why a cell has no typed tree.
#[derive(Clone, Copy, PartialEq, Eq)]
pub enum CheckError {
    /// It passes a limit, first there.
    Limit(PassedLimit),
    /// It passes no limit and breaks a clause, first there: the first one of Level 0, and where there is none of Level 1.
    Broken(Breach),
    NoMemory,
}

/// The typed tree of a cell, an entity with one of its architectures or none, in a library whose packages these are; or the first limit that
/// it passes, or the first clause that it breaks. The files of the library were read, and the cell is one of the library. It takes time in
/// proportion to its text.
pub fn check_cell<'a>(
    alloc: Global,
    packages: &'a TypedPackages<'a>,
    entity: &'a Entity,
    arch: Option<&'a Arch>,
) -> Result<Checked, CheckError>
    requires read { All IsFromText packages.now }
    requires cell { IsCellOfLibrary (record { files = packages.now; entity = entity.now; arch = option_copied arch }) }
    ensures { IsAnswer (record { files = packages.now; entity = entity.now; arch = option_copied arch.entry }) result }
{
    cells_are_as_read();
    typed_is_sound();
    match verdict(alloc, packages.packages(), entity, arch) {
        Ok(CellLevel::Level1) => match read_typed_cell(alloc, packages, entity, arch) {
            Ok(cell) => Ok(Checked::new(cell)),
            Err(_) => Err(CheckError::NoMemory),
        },
        Ok(CellLevel::Level0(breach)) => Err(CheckError::Broken(breach)),
        Ok(CellLevel::Neither(breach)) => Err(CheckError::Broken(breach)),
        Err(CellError::Limit(limit)) => Err(CheckError::Limit(limit)),
        Err(CellError::NoMemory) => Err(CheckError::NoMemory),
    }
}
