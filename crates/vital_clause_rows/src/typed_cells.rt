//! The typed trees of cells.

ghost use Rattle.std.specs.Option.{option_copied};
ghost use Rattle.std.specs.Prelude.{All};
ghost use Rattle.vital_as_read.specs.Libraries.{IsCellOfLibrary, IsFromText};

use crate::library::first_cell;
use crate::limits::put_passed;
use crate::printing::put_cell;
use std::alloc::{AllocError, Global};
use vital_base::Breach;
use vital_level1::Packages;
use vital_library::Library;
use vital_names::LibraryNames;
use vital_nodes::{Arch, Entity};
use vital_typed_cells::{CheckError, Checked, TypedPackages, check_cell, default_values};

/// Puts a cell that meets Level 1, and what its timing generics begin with.
fn put_checked(alloc: Global, text: &mut String, checked: &Checked) -> Result<(), AllocError> {
    put_cell(text, checked.cell())?;
    let values = default_values(alloc, checked)?;
    for delay in values.as_slice() {
        write!(text, "value {delay:?}\n")?;
    }
    Ok(())
}

fn put_breach(text: &mut String, breach: Breach) -> Result<(), AllocError> {
    let clause = breach.clause;
    let place = breach.place;
    write!(
        text,
        "L{}.{} {} {}\n",
        clause.level, clause.number, place.line, place.column
    )
}

/// Puts a checked cell, or why it is none.
fn put_answer(
    alloc: Global,
    text: &mut String,
    answer: &Result<Checked, CheckError>,
) -> Result<(), AllocError> {
    match answer {
        Ok(checked) => put_checked(alloc, text, checked),
        Err(CheckError::Limit(passed)) => put_passed(text, *passed),
        Err(CheckError::Broken(breach)) => put_breach(text, *breach),
        Err(CheckError::NoMemory) => Err(AllocError),
    }
}

/// Puts what the check of a cell of a library answers.
fn put_in_library(
    alloc: Global,
    text: &mut String,
    library: &Library,
    entity: &Entity,
    arch: Option<&Arch>,
) -> Result<(), AllocError>
    requires read { All IsFromText library.now }
    requires cell { IsCellOfLibrary (record { files = library.now; entity = entity.now; arch = option_copied arch }) }
{
    let names = LibraryNames::new(alloc, library)?;
    let packages = Packages::new(alloc, &names)?;
    let typed = TypedPackages::new(alloc, &packages)?;
    let answer = check_cell(alloc, &typed, entity, arch);
    put_answer(alloc, text, &answer)
}

/// Puts the typed tree of the cell of a library, or its first limit or breach.
pub fn put_typed(alloc: Global, text: &mut String, library: &Library) -> Result<(), AllocError>
    requires read { All IsFromText library.now }
{
    let Some((entity, arch)) = first_cell(library) else {
        return text.push_str("no cell\n");
    };
    put_in_library(alloc, text, library, entity, arch)
}
