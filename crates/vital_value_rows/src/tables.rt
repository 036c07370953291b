//! Tables of VITAL: the row that matches, and what it gives.

ghost use Rattle.std.specs.Prelude.{◌≡◌, ◌<◌, length};
ghost use Rattle.std.specs.Option.{ForSome};

use super::levels::LEVELS;
use super::words::{Said, letter, levels, line, lines_of, small, word};
use sqlite_items::Items;
use std::alloc::{AllocError, Global};
use vital_logic::Level;
use vital_row_files::GivenFile;
use vital_table::{MaskTable, Table};

/// What a view says of tables.
pub fn say(alloc: Global, words: &[&str], files: &[GivenFile]) -> Said {
    match word(words, 0) {
        "table" => first_rows(alloc, words, files),
        "results" => results(alloc, words, files),
        "input" => input(alloc, word(words, 1)),
        _ => state(alloc, word(words, 1)),
    }
}

/// The rows of a table: a line each.
fn rows_of(alloc: Global, files: &[GivenFile]) -> Result<Vec<Items<u8>>, AllocError> {
    let mut rows = Vec::new(alloc);
    for line in lines_of(alloc, files, "rows")?.as_slice() {
        let symbols = word(line.as_slice(), 0);
        rows.push(Items::from_slice(alloc, symbols.as_bytes())?)?;
    }
    Ok(rows)
}

/// The previous and the present levels of inputs, and the levels of states, of a line.
#[derive(Drop)]
struct Given {
    old: Vec<Level>,
    new: Vec<Level>,
    state: Vec<Level>,
}

fn given_of(alloc: Global, words: &[&str]) -> Result<Given, AllocError> {
    Ok(Given {
        old: levels(alloc, word(words, 0))?,
        new: levels(alloc, word(words, 1))?,
        state: levels(alloc, word(words, 2))?,
    })
}

/// Says the first row that matches, from 0, or `none`; `too few` where the levels are not as many as the table has columns for them.
fn put_first_row(
    text: &mut String,
    masks: &MaskTable,
    columns: (u32, u32),
    given: &Given,
) -> Result<(), AllocError>
    requires inputs { masks.now.inputs ≡ columns.0 }
    requires states { masks.now.states ≡ columns.1 }
{
    let (inputs, states) = (columns.0 as usize, columns.1 as usize);
    if given.old.len() != inputs || given.new.len() != inputs || given.state.len() != states {
        return text.push_str("too few\n");
    }
    let (old, new) = (given.old.as_slice(), given.new.as_slice());
    match masks.first_row(old, new, given.state.as_slice()) {
        Some(row) => write!(text, "row {row}\n")?,
        None => text.push_str("none\n")?,
    }
    Ok(())
}

/// Whether rows are a table with these columns; if so, for each line of levels the first row that matches.
fn first_rows(alloc: Global, words: &[&str], files: &[GivenFile]) -> Said {
    let rows = rows_of(alloc, files)?;
    let Some((inputs, states, results)) = columns_of(words) else {
        return Ok(None);
    };
    let table = Table {
        inputs,
        states,
        results,
        rows: rows.as_slice(),
    };
    if !table.is_table() {
        return line(alloc, "no table");
    }
    let masks = MaskTable::build(alloc, &table)?;
    let mut text = String::new(alloc);
    text.push_str("a table\n")?;
    for line in lines_of(alloc, files, "levels")?.as_slice() {
        let given = given_of(alloc, line.as_slice())?;
        put_first_row(&mut text, &masks, (inputs, states), &given)?;
    }
    Ok(Some(text))
}

/// How many columns are inputs, states and results.
fn columns_of(words: &[&str]) -> Option<(u32, u32, u32)> {
    let inputs = small(word(words, 1))?;
    let states = small(word(words, 2))?;
    let results = small(word(words, 3))?;
    Some((inputs, states, results))
}

/// What a row of a table of results alone gives for each, for what they were before; `none` stands for no row.
fn results(alloc: Global, words: &[&str], files: &[GivenFile]) -> Said {
    let rows = rows_of(alloc, files)?;
    let before = levels(alloc, word(words, 2))?;
    if before.len() > 32 {
        return Ok(None);
    }
    let results = before.len() as u32;
    let table = Table {
        inputs: 0,
        states: 0,
        results,
        rows: rows.as_slice(),
    };
    let row = small(word(words, 1));
    let is_there = match row {
        Some(row) => (row as usize) < table.rows.len(),
        None => true,
    };
    if !table.is_table() || !is_there {
        return Ok(None);
    }
    let masks = MaskTable::build(alloc, &table)?;
    all_results(alloc, &masks, row, before.as_slice())
}

fn all_results(alloc: Global, masks: &MaskTable, row: Option<u32>, before: &[Level]) -> Said
    requires row { ForSome row (λ row. row < length masks.now.rows) }
    requires few { length before.now < 33 }
    requires results { masks.now.results ≡ length before.now }
{
    let mut text = String::new(alloc);
    for (number, level) in before.iter().enumerate() {
        text.push(letter(masks.result_at(row, number as u32, *level)))?;
    }
    text.push('\n')?;
    Ok(Some(text))
}

/// A row of a symbol and of a result.
fn row_of(alloc: Global, symbol: &str) -> Result<Vec<Items<u8>>, AllocError> {
    let row = format!(in alloc; "{symbol}0")?;
    let mut rows = Vec::new(alloc);
    rows.push(Items::from_slice(alloc, row.as_bytes())?)?;
    Ok(rows)
}

/// For each previous level a line with `y` for each present one that a symbol of an input matches.
fn input(alloc: Global, symbol: &str) -> Said {
    let rows = row_of(alloc, symbol)?;
    let table = Table {
        inputs: 1,
        states: 0,
        results: 1,
        rows: rows.as_slice(),
    };
    if !table.is_table() {
        return Ok(None);
    }
    let masks = MaskTable::build(alloc, &table)?;
    let mut text = String::new(alloc);
    for old in LEVELS {
        for new in LEVELS {
            let found = masks.first_row(&[old], &[new], &[]);
            text.push(if found.is_some() { 'y' } else { '-' })?;
        }
        text.push('\n')?;
    }
    Ok(Some(text))
}

/// A line with `y` for each level that a symbol of a state matches.
fn state(alloc: Global, symbol: &str) -> Said {
    let rows = row_of(alloc, symbol)?;
    let table = Table {
        inputs: 0,
        states: 1,
        results: 1,
        rows: rows.as_slice(),
    };
    if !table.is_table() {
        return Ok(None);
    }
    let masks = MaskTable::build(alloc, &table)?;
    let mut text = String::new(alloc);
    for level in LEVELS {
        let found = masks.first_row(&[], &[], &[level]);
        text.push(if found.is_some() { 'y' } else { '-' })?;
    }
    text.push('\n')?;
    Ok(Some(text))
}
