//! The tables that calls use (IEEE 1076.4, 6.4): which constant of tables an expression names, and how a call of VitalTruthTable parts the columns of its
//! table into inputs and states.
#![tactic(auto)]

mod table_use;

pub use table_use::{TableUse, UsedTable, truth_use_at, used_table};
