//! Tables of VitalStateTable.

ghost use Rattle.std.specs.Prelude.{◌≡◌, ◌<◌, ◌≤◌, IfOk, IfSome, IsTrue, length, nat_lt, if◌then◌else◌};
ghost use Rattle.std.specs.Option.{ForSome};
ghost use Rattle.vital_table.specs.Matches.{first_row};
ghost use Rattle.vital_table.specs.Results.{result_at};
ghost use Rattle.vital_table.specs.Tables.{is_table, lent};

use std::alloc::{AllocError, Global};
use std::marker::Model;
use vital_logic::Level;
use vital_table::{MaskTable, Table};

/// A table of VitalStateTable (IEEE 1076.4, package VITAL_Primitives). Contracts see it as the table.
#[derive(Drop)]
pub struct StateTable {
    table: MaskTable,
    inputs: usize,
    states: usize,
    results: u32,
}

impl Model for StateTable {
    ghost use Rattle.std.specs.Prelude.{◌≡◌, ◌+◌, ◌≤◌};
    ghost use Rattle.vital_table.specs.Tables.{Table};

    ghost Value = { Table };

    ghost view = { λ t. t.table };

    ghost invariant = { λ t. (t.inputs ≡ t.table.inputs) × (t.states ≡ t.table.states) × (t.results ≡ t.table.results) × (t.states ≤ t.results) × (t.inputs + t.states + t.results ≤ 32) };
}

impl StateTable {
    /// A table with so many inputs, states and results, of which the first ones are the states, whose rows these are. It takes time and
    /// memory in proportion to its symbols.
    pub fn new(alloc: Global, table: &Table<'_>) -> Result<StateTable, AllocError>
        requires table { IsTrue (is_table (lent table.now)) }
        requires states { table.now.states ≤ table.now.results }
        ensures { IfOk result (λ state_table. state_table ≡ lent table.now) }
    {
        Ok(StateTable {
            table: MaskTable::build(alloc, table)?,
            inputs: table.inputs as usize,
            states: table.states as usize,
            results: table.results,
        })
    }

    /// How many inputs it has.
    pub(crate) fn inputs(&self) -> usize
        ensures count { result ≡ self.now.inputs }
        ensures few { result ≤ 32 }
    {
        self.inputs
    }

    /// How many states it has.
    pub(crate) fn states(&self) -> usize
        ensures count { result ≡ self.now.states }
        ensures few { result ≤ self.now.results }
    {
        self.states
    }

    /// How many results it has.
    pub(crate) fn results(&self) -> usize
        ensures count { result ≡ self.now.results }
        ensures few { result ≤ 32 }
    {
        self.results as usize
    }

    /// The number of the first row that matches the previous and the present inputs and the states; None exactly where no row does. It
    /// takes no memory.
    pub(crate) fn row(&self, old: &[Level], new: &[Level], states: &[Level]) -> Option<u32>
        requires old { length old.now ≡ self.now.inputs }
        requires new { length new.now ≡ self.now.inputs }
        requires states { length states.now ≡ self.now.states }
        ensures first { result ≡ first_row self.now old.now new.now states.now }
        ensures there { IfSome result (λ row. row < length self.now.rows) }
    {
        self.table.first_row(old, new, states)
    }

    /// The result of a number that a row gives for what it was before: X without a row, and what it was where there is no such result. It
    /// takes no memory.
    pub(crate) fn result(&self, row: Option<u32>, number: usize, before: Level) -> Level
        requires { ForSome row (λ row. row < length self.now.rows) }
        ensures { result ≡ (if nat_lt number self.now.results then result_at self.now row number before else before) }
    {
        if number < self.results as usize {
            self.table.result_at(row, number as u32, before)
        } else {
            before
        }
    }
}
