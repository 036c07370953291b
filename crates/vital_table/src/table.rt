//! Tables as they are given.

ghost use Rattle.std.specs.Prelude.{◌≡◌, ◌==◌, length};
ghost use Rattle.std.specs.List.{list_all};
ghost use Rattle.vital_table.specs.Symbols as symbols;
ghost use Rattle.vital_table.specs.Tables.{is_table, lent};

use crate::symbol::allows_symbol;
use sqlite_items::Items;

/// A table: how many of its columns are inputs, how many after them are states and how many after these are results, and its rows, each
/// as the symbols of its columns. A truth table has no states. The rows are lent, as the constant that has them keeps them.
#[derive(Clone, Copy)]
pub struct Table<'a> {
    pub inputs: u32,
    pub states: u32,
    pub results: u32,
    pub rows: &'a [Items<u8>],
}

/// Whether each row has so many symbols.
fn are_whole(columns: usize, rows: &[Items<u8>]) -> bool
    ensures { result ≡ list_all (λ row. length row == columns) rows.now }
{
    rows.iter().all(|row| row.len() == columns)
}

/// Whether each symbol of a row is one that its column may have.
fn allows_row(inputs: usize, states: usize, row: &[u8]) -> bool
    ensures { result ≡ symbols.allows_row inputs states row.now }
{
    row.iter().enumerate().all(|(column, symbol)| allows_symbol(inputs, states, column, *symbol))
}

/// Whether each symbol of rows is one that its column may have.
fn allows(inputs: usize, states: usize, rows: &[Items<u8>]) -> bool
    ensures { result ≡ symbols.allows inputs states rows.now }
{
    rows.iter()
        .all(|row| allows_row(inputs, states, row.as_slice()))
}

impl Table<'_> {
    /// Whether it has at most 128 rows and 32 columns, each row has a symbol for each column, and each symbol is one that its column
    /// may have. It takes time in proportion to the symbols.
    pub fn is_table(&self) -> bool
        ensures { result ≡ is_table (lent self.now) }
    {
        let inputs = self.inputs as usize;
        let states = self.states as usize;
        let columns = inputs + states + self.results as usize;
        if self.rows.len() > 128 {
            return false;
        }
        if columns > 32 {
            return false;
        }
        are_whole(columns, self.rows) && allows(inputs, states, self.rows)
    }
}
