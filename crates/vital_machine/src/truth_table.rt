//! Tables of VitalTruthTable.

ghost use Rattle.std.specs.Prelude.{◌≡◌, ◌<◌, ◌≤◌, [], IfOk, IfSome, IsTrue, length, slice_index_or};
ghost use Rattle.std.specs.Option.{ForSome};
ghost use Rattle.vital_machine.specs.TruthTables.{results_by};
ghost use Rattle.vital_logic.specs.declared.level.Level.TheVariants as level;
ghost use Rattle.vital_table.specs.Matches.{first_row};
ghost use Rattle.vital_table.specs.Tables.{is_table, lent};

use std::alloc::{AllocError, Global};
use std::marker::Model;
use vital_logic::Level;
use vital_table::{MaskTable, Table};

/// A table of VitalTruthTable (IEEE 1076.4, package VITAL_Primitives), which has no states. Contracts see it as the table.
#[derive(Drop)]
pub struct TruthTable {
    table: MaskTable,
    inputs: usize,
    results: u32,
}

impl Model for TruthTable {
    ghost use Rattle.std.specs.Prelude.{◌≡◌, ◌≤◌};
    ghost use Rattle.vital_table.specs.Tables.{Table};

    ghost Value = { Table };

    ghost view = { λ t. t.table };

    ghost invariant = { λ t. (t.table.states ≡ 0) × (t.inputs ≡ t.table.inputs) × (t.results ≡ t.table.results) × (t.inputs ≤ 32) };
}

impl TruthTable {
    /// A table with so many inputs and results, whose rows these are. It takes time and memory in proportion to its symbols.
    pub fn new(alloc: Global, table: &Table<'_>) -> Result<TruthTable, AllocError>
        requires table { IsTrue (is_table (lent table.now)) }
        requires states { table.now.states ≡ 0 }
        ensures { IfOk result (λ truth_table. truth_table ≡ lent table.now) }
    {
        Ok(TruthTable {
            table: MaskTable::build(alloc, table)?,
            inputs: table.inputs as usize,
            results: table.results,
        })
    }

    /// How many inputs it has.
    pub(crate) fn inputs(&self) -> usize
        ensures count { result ≡ self.now.inputs }
        ensures few { result ≤ 32 }
    {
        self.inputs
    }

    /// The number of the first row that matches inputs; None exactly where no row does. It takes no memory.
    pub(crate) fn row(&self, inputs: &[Level]) -> Option<u32>
        requires { length inputs.now ≡ self.now.inputs }
        ensures first { result ≡ first_row self.now inputs.now inputs.now [] }
        ensures there { IfSome result (λ row. row < length self.now.rows) }
    {
        self.table.first_row(inputs, inputs, &[])
    }

    /// The result of a number that a row gives, from 0: X without a row, and U where there is no such result. It takes no memory.
    pub(crate) fn result(&self, row: Option<u32>, number: usize) -> Level
        requires { ForSome row (λ row. row < length self.now.rows) }
        ensures { result ≡ slice_index_or (results_by self.now row) number level.U }
    {
        if number < self.results as usize {
            self.table.result_at(row, number as u32, Level::X)
        } else {
            Level::U
        }
    }
}
