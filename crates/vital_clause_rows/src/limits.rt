//! The first limits that cells pass.

ghost use Rattle.std.specs.Prelude.{◌≡◌};
ghost use Rattle.vital_limits.specs.ConstantLimits as limits;

use crate::library::first_cell;
use std::alloc::{AllocError, Global};
use vital_library::Library;
use vital_limits::{ConstantLimits, PassedLimit, cell_limit, constant_limits};
use vital_names::{CellNames, LibraryNames};
use vital_uses::{CellStatements, CellUses};

/// The first limit that a cell passes, by its text or by these constants of packages.
fn limit_of<'a>(
    alloc: Global,
    names: &'a CellNames<'a>,
    constants: &[ConstantLimits],
) -> Result<Option<PassedLimit>, AllocError>
    requires constants { constants.now ≡ limits.constant_limits names.now.files }
{
    let statements = CellStatements::new(alloc, names.arch())?;
    let uses = CellUses::new(alloc, names, &statements)?;
    cell_limit(alloc, &uses, &statements, constants)
}

/// Puts a limit with the line and the column at which it is passed.
pub fn put_passed(text: &mut String, passed: PassedLimit) -> Result<(), AllocError> {
    let place = passed.place;
    write!(text, "{:?} {} {}\n", passed.limit, place.line, place.column)
}

/// Puts the first limit that the cell of a library passes.
pub fn put_limit(alloc: Global, text: &mut String, library: &Library) -> Result<(), AllocError> {
    let Some((entity, arch)) = first_cell(library) else {
        return text.push_str("no cell\n");
    };
    let outside = LibraryNames::new(alloc, library)?;
    let constants = constant_limits(alloc, &outside)?;
    let names = CellNames::new(alloc, &outside, entity, arch)?;
    match limit_of(alloc, &names, &constants)? {
        Some(passed) => put_passed(text, passed),
        None => text.push_str("no limit\n"),
    }
}
