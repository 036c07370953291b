//! The places at which cells break clauses.

use crate::library::first_cell;
use std::alloc::{AllocError, Global};
use vital_base::Place;
use vital_call_clauses::clause_14;
use vital_declaration_clauses::{
    clause_2, clause_3, clause_4, clause_9, clause_17, clause_18, regions,
};
use vital_drivers::{clause_6, clause_12};
use vital_library::Library;
use vital_names::{CellNames, LibraryNames};
use vital_statements::{clause_1, clause_5, clause_7, clause_10, clause_11};
use vital_uses::{CellStatements, CellUses};
use vital_variables::clause_13;

/// Where a cell breaks a clause on what is declared in its regions.
fn in_regions(
    alloc: Global,
    names: &CellNames<'_>,
    clause: &str,
) -> Result<Vec<Place>, AllocError> {
    let regions = regions(alloc, names)?;
    match clause {
        "L1.3" => clause_3(alloc, names, &regions),
        "L1.4" => clause_4(alloc, names, &regions),
        "L1.9" => clause_9(alloc, names, &regions),
        _ => clause_17(alloc, names, &regions),
    }
}

/// Where a cell breaks a clause on its names.
fn at_names<'a>(
    alloc: Global,
    names: &'a CellNames<'a>,
    clause: &str,
) -> Result<Vec<Place>, AllocError> {
    let statements = CellStatements::new(alloc, names.arch())?;
    let uses = CellUses::new(alloc, names, &statements)?;
    match clause {
        "L1.8" => uses.clause_8(alloc),
        "L1.13" => clause_13(alloc, &uses),
        "L1.14" => clause_14(alloc, &uses, &statements),
        _ => uses.clause_16(alloc),
    }
}

/// Puts the places at which a cell breaks a clause, in order.
fn put_places(
    alloc: Global,
    text: &mut String,
    names: &CellNames<'_>,
    clause: &str,
) -> Result<(), AllocError> {
    let mut places = match clause {
        "L1.1" => clause_1(alloc, names)?,
        "L1.2" => clause_2(alloc, names)?,
        "L1.3" | "L1.4" | "L1.9" | "L1.17" => in_regions(alloc, names, clause)?,
        "L1.5" => clause_5(alloc, names)?,
        "L1.6" => clause_6(alloc, names)?,
        "L1.7" => clause_7(alloc, names)?,
        "L1.8" | "L1.13" | "L1.14" | "L1.16" => at_names(alloc, names, clause)?,
        "L1.10" => clause_10(alloc, names)?,
        "L1.11" => clause_11(alloc, names)?,
        "L1.12" => clause_12(alloc, names)?,
        "L1.18" => clause_18(alloc, names)?,
        _ => return text.push_str("no such clause\n"),
    };
    places.sort()?;
    for place in &places {
        write!(text, "{clause} {} {}\n", place.line, place.column)?;
    }
    Ok(())
}

/// Puts the places at which the cell of a library breaks these clauses, in order of the clauses.
pub fn put_clauses(
    alloc: Global,
    text: &mut String,
    library: &Library,
    clauses: &[String],
) -> Result<(), AllocError> {
    let Some((entity, arch)) = first_cell(library) else {
        return text.push_str("no cell\n");
    };
    let outside = LibraryNames::new(alloc, library)?;
    let names = CellNames::new(alloc, &outside, entity, arch)?;
    for clause in clauses {
        put_places(alloc, text, &names, clause.as_str())?;
    }
    Ok(())
}
