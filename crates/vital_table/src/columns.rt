//! The masks of columns.

ghost use Rattle.std.specs.Prelude.{◌≡◌, ◌+◌, ◌≤◌, IfOk, length, slice_index};
ghost use Rattle.vital_table.specs.Masks.{AreFor, AreInputColumns, AreStateColumns, IsInputColumn, IsStateColumn, mask_of};
ghost use Rattle.vital_table.specs.Matches as matches;

use crate::masks::{ChangeMasks, LevelMasks};
use crate::row_mask::with_row;
use crate::symbol::{input_matches, level_matches};
use sqlite_items::Items;
use std::alloc::{AllocError, Global};
use vital_logic::Level;

/// The symbol of a row in a column; a row of a table has them all.
pub(crate) fn symbol_at(row: &Items<u8>, column: usize) -> u8
    ensures { result ≡ slice_index row.now column }
{
    row.as_slice().get(column).copied().unwrap_or(0)
}

/// The rows whose symbol in the column of an input matches a previous and a present level.
fn input_mask(rows: &[Items<u8>], column: usize, old: Level, new: Level) -> u128
    requires { length rows.now ≤ 128 }
    ensures { result ≡ mask_of (λ row. matches.input_matches (slice_index row column) old new) rows.now }
{
    let mut mask = 0;
    for (number, row) in rows.iter().enumerate() {
        let symbol = symbol_at(row, column);
        mask = with_row(mask, number, input_matches(symbol, old, new));
    }
    mask
}

/// The rows whose symbol in the column of a state matches a level.
fn state_mask(rows: &[Items<u8>], column: usize, level: Level) -> u128
    requires { length rows.now ≤ 128 }
    ensures { result ≡ mask_of (λ row. matches.level_matches (slice_index row column) level) rows.now }
{
    let mut mask = 0;
    for (number, row) in rows.iter().enumerate() {
        let symbol = symbol_at(row, column);
        mask = with_row(mask, number, level_matches(symbol, level));
    }
    mask
}

/// The masks of the column of an input, for a previous level.
fn masks_from(rows: &[Items<u8>], column: usize, old: Level) -> LevelMasks
    requires { length rows.now ≤ 128 }
    ensures { AreFor rows.now (λ new row. matches.input_matches (slice_index row column) old new) result }
{
    let x = input_mask(rows, column, old, Level::X);
    let zero = input_mask(rows, column, old, Level::Zero);
    let one = input_mask(rows, column, old, Level::One);
    LevelMasks { x, zero, one }
}

/// The masks of the column of an input.
fn input_column(rows: &[Items<u8>], column: usize) -> ChangeMasks
    requires { length rows.now ≤ 128 }
    ensures { IsInputColumn rows.now column result }
{
    let from_x = masks_from(rows, column, Level::X);
    let from_zero = masks_from(rows, column, Level::Zero);
    let from_one = masks_from(rows, column, Level::One);
    ChangeMasks {
        from_x,
        from_zero,
        from_one,
    }
}

/// The masks of the column of a state.
fn state_column(rows: &[Items<u8>], column: usize) -> LevelMasks
    requires { length rows.now ≤ 128 }
    ensures { IsStateColumn rows.now column result }
{
    let x = state_mask(rows, column, Level::X);
    let zero = state_mask(rows, column, Level::Zero);
    let one = state_mask(rows, column, Level::One);
    LevelMasks { x, zero, one }
}

/// The masks of the columns of so many inputs, which are the first ones.
pub(crate) fn input_columns(
    alloc: Global,
    rows: &[Items<u8>],
    count: usize,
) -> Result<Vec<ChangeMasks>, AllocError>
    requires { length rows.now ≤ 128 }
    ensures count { IfOk result (λ columns. length columns.items ≡ count) }
    ensures columns { IfOk result (λ columns. AreInputColumns rows.now 0 columns.items) }
{
    let mut columns = Vec::with_capacity(alloc, count)?;
    for column in 0..count {
        columns.push(input_column(rows, column))?;
    }
    Ok(columns)
}

/// The masks of the columns of so many states, the first of which has a number.
pub(crate) fn state_columns(
    alloc: Global,
    rows: &[Items<u8>],
    first: usize,
    count: usize,
) -> Result<Vec<LevelMasks>, AllocError>
    requires rows { length rows.now ≤ 128 }
    requires columns { first + count ≤ 32 }
    ensures count { IfOk result (λ columns. length columns.items ≡ count) }
    ensures columns { IfOk result (λ columns. AreStateColumns rows.now first columns.items) }
{
    let mut columns = Vec::with_capacity(alloc, count)?;
    for number in 0..count {
        columns.push(state_column(rows, first + number))?;
    }
    Ok(columns)
}
