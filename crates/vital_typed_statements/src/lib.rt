//! Statements of a cell of VITAL (IEEE 1076.4) as typed trees, and where a part of one is not of the form or type that is asked of it.
#![tactic(auto)]

mod call;
mod given;
mod state_table;
mod state_use;
mod statement;

pub use call::read_call;
pub use given::GivenActual;
pub use statement::{TypedStatement, Value, read_statement};
