//! Tables by the masks of their columns.

ghost use Rattle.std.specs.Prelude.{◌≡◌, ◌<◌, IfOk, IfSome, IsTrue, bit_and, fold, length};
ghost use Rattle.std.specs.List.{zip};
ghost use Rattle.std.specs.Option.{ForSome};
ghost use Rattle.vital_table.specs.Masks.{change_mask_at, mask_at};
ghost use Rattle.vital_table.specs.Matches.{first_row};
ghost use Rattle.vital_table.specs.Results.{result_at};
ghost use Rattle.vital_table.specs.Tables.{is_table, lent};

use crate::columns::{input_columns, state_columns, symbol_at};
use crate::masks::{ChangeMasks, LevelMasks};
use crate::row_mask::{all_rows, first_of};
use crate::symbol::result_of;
use crate::table::Table;
use sqlite_items::Items;
use std::alloc::{AllocError, Global};
use std::marker::Model;
use vital_logic::Level;

/// A table, with a mask of its rows for each column and each level that a symbol there may match. Contracts see it as the table.
#[derive(Drop)]
pub struct MaskTable {
    inputs: Vec<ChangeMasks>,
    states: Vec<LevelMasks>,
    results: u32,
    rows: Items<Items<u8>>,
    all: u128,
}

impl Model for MaskTable {
    ghost use Rattle.std.specs.Prelude.{◌+◌, ◌≤◌, length};
    ghost use Rattle.vital_table.specs.Masks.{AreMasks};
    ghost use Rattle.vital_table.specs.Tables.{Table};

    ghost Value = { Table };

    ghost view = { λ t. record { inputs = length t.inputs.items; states = length t.states.items; results = t.results; rows = t.rows } };

    ghost invariant = { λ t. AreMasks t.rows t.inputs.items t.states.items t.all × (length t.inputs.items + length t.states.items + t.results ≤ 32) };
}

/// A copy of rows.
fn copies(alloc: Global, rows: &[Items<u8>]) -> Result<Items<Items<u8>>, AllocError>
    ensures { IfOk result (λ copies. copies ≡ rows.now) }
{
    let mut copies = Vec::with_capacity(alloc, rows.len())?;
    for row in rows {
        let copy = Items::from_slice(alloc, row.as_slice())?;
        copies.push(copy)?;
    }
    Ok(Items::from_vec(copies))
}

/// Of some rows, those that match the previous and the present levels of the inputs.
fn matching_inputs(rows: u128, columns: &[ChangeMasks], old: &[Level], new: &[Level]) -> u128
    ensures { result ≡ fold (λ rows c. bit_and rows (change_mask_at c.0 c.1.0 c.1.1)) rows (zip columns.now (zip old.now new.now)) }
{
    columns.iter().zip(old.iter().zip(new.iter())).fold(
        rows,
        |rows, (masks, (old, new))| rows & masks.at(*old, *new),
    )
}

/// Of some rows, those that match the levels of the states.
fn matching_states(rows: u128, columns: &[LevelMasks], state: &[Level]) -> u128
    ensures { result ≡ fold (λ rows c. bit_and rows (mask_at c.0 c.1)) rows (zip columns.now state.now) }
{
    columns
        .iter()
        .zip(state.iter())
        .fold(rows, |rows, (masks, level)| rows & masks.at(*level))
}

impl MaskTable {
    /// The masks of a table. It takes time in proportion to the symbols of its inputs and states, and memory for its symbols and for
    /// nine masks for each input and three for each state.
    pub fn build(alloc: Global, table: &Table<'_>) -> Result<MaskTable, AllocError>
        requires { IsTrue (is_table (lent table.now)) }
        ensures { IfOk result (λ masks. masks ≡ lent table.now) }
    {
        let rows = table.rows;
        let inputs = input_columns(alloc, rows, table.inputs as usize)?;
        let states = state_columns(alloc, rows, table.inputs as usize, table.states as usize)?;
        let all = all_rows(rows);
        let copies = copies(alloc, rows)?;
        Ok(MaskTable {
            inputs,
            states,
            results: table.results,
            rows: copies,
            all,
        })
    }

    /// The number of the first row that matches the previous and the present levels of the inputs and the levels of the states, in the
    /// order of their columns; None exactly where no row does. It takes no memory, and time in proportion to the columns.
    pub fn first_row(&self, old: &[Level], new: &[Level], state: &[Level]) -> Option<u32>
        requires old { length old.now ≡ self.now.inputs }
        requires new { length new.now ≡ self.now.inputs }
        requires state { length state.now ≡ self.now.states }
        ensures first { result ≡ first_row self.now old.now new.now state.now }
        ensures there { IfSome result (λ row. row < length self.now.rows) }
    {
        let rows = matching_inputs(self.all, &self.inputs, old, new);
        first_of(matching_states(rows, &self.states, state))
    }

    /// What a row gives for a result, which has a number among the results, for what it was before; without a row it is X. It takes no
    /// memory.
    pub fn result_at(&self, row: Option<u32>, number: u32, before: Level) -> Level
        requires row { ForSome row (λ row. row < length self.now.rows) }
        requires number { number < self.now.results }
        ensures { result ≡ result_at self.now row number before }
    {
        match row {
            Some(row) => {
                let column = self.inputs.len() + self.states.len() + number as usize;
                let symbol = symbol_at(&self.rows.as_slice()[row as usize], column);
                result_of(symbol, before)
            }
            None => Level::X,
        }
    }
}
