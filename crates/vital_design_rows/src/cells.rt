//! Cells of designs as lines. The name of its first port tells a cell.

use super::faults::put_bytes;
use std::alloc::AllocError;
use vital_library::Library;
use vital_netlist::Cells;
use vital_typed_cells::Checked;

/// Puts the name of the first port of a cell.
fn put_cell(text: &mut String, cell: &Checked) -> Result<(), AllocError> {
    match cell.cell().ports.as_slice().first() {
        Some(port) => put_bytes(text, port.name.as_slice())?,
        None => text.push('-')?,
    }
    text.push('\n')
}

/// Puts each of cells.
pub fn put_cells(text: &mut String, cells: &[Checked]) -> Result<(), AllocError> {
    for cell in cells {
        put_cell(text, cell)?;
    }
    Ok(())
}

/// Puts what an entity is as a cell: its number and the cell, or a dash for each that there is not.
fn put_number(text: &mut String, cells: &Cells<'_>, entity: u32) -> Result<(), AllocError> {
    match cells.number(entity) {
        Some(number) => write!(text, "{number} ")?,
        None => text.push_str("- ")?,
    }
    match cells.of_entity(entity) {
        Some(cell) => put_cell(text, cell),
        None => text.push_str("-\n"),
    }
}

/// Puts what each entity of a library is as a cell, and what the number behind the last of them is.
pub fn put_numbers(
    text: &mut String,
    library: &Library,
    cells: &Cells<'_>,
) -> Result<(), AllocError> {
    for entity in 0..library.entity_count() {
        put_bytes(text, library.entity(entity).identifier.name.as_slice())?;
        text.push(' ')?;
        put_number(text, cells, entity)?;
    }
    text.push_str("behind ")?;
    put_number(text, cells, library.entity_count())
}
