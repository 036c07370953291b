//! Calls of VitalTruthTable (IEEE 1076.4, package VITAL_Primitives).

ghost use Rattle.std.specs.Prelude.{◌≡◌, ◌<◌, length, map, IfOk, IsTrue};
ghost use Rattle.std.specs.List.{range_with_len};
ghost use Rattle.std.specs.Option.{ForSome};
ghost use Rattle.vital_logic.specs.declared.level.Level.TheVariants as level;
ghost use Rattle.vital_table.specs.Results.{result_at};
ghost use Rattle.vital_table.specs.Tables.{is_table};
ghost use Rattle.vital_typed_cells.specs.Expressions as spec;

use sqlite_items::Items;
use std::alloc::{AllocError, Global};
use vital_logic::Level;
use vital_table::{MaskTable, Table};

/// What a row of a truth table gives for all its results; X for each without one.
fn results_of_row(
    alloc: Global,
    masks: &MaskTable,
    row: Option<u32>,
    results: u32,
) -> Result<Vec<Level>, AllocError>
    requires row { ForSome row (λ row. row < length masks.now.rows) }
    requires results { results ≡ masks.now.results }
    ensures { IfOk result (λ found. found.items ≡ map (λ number. result_at masks.now row number level.X) (range_with_len 0 results)) }
{
    let mut found = Vec::new(alloc);
    for number in 0..results {
        found.push(masks.result_at(row, number, Level::X))?;
    }
    Ok(found)
}

/// So many results of a truth table at inputs: those of the first row that matches, and X for each where none does. It takes time in
/// proportion to the symbols of the table.
pub fn truth_results(
    alloc: Global,
    rows: &[Items<u8>],
    inputs: &[Level],
    results: usize,
) -> Result<Vec<Level>, AllocError>
    requires { IsTrue (is_table (spec.truth_table rows.now inputs.now results)) }
    ensures { IfOk result (λ found. found.items ≡ spec.truth_results rows.now inputs.now results) }
{
    let table = Table {
        inputs: inputs.len() as u32,
        states: 0,
        results: results as u32,
        rows,
    };
    let masks = MaskTable::build(alloc, &table)?;
    let row = masks.first_row(inputs, inputs, &[]);
    results_of_row(alloc, &masks, row, table.results)
}
