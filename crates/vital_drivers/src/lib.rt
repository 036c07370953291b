//! The clauses of Level 1 of VITAL (IEEE 1076.4) that speak of what drives signals and ports: calls of wire delays and of path
//! delays.
#![tactic(auto)]

mod actual;
mod driver;
mod named;
mod path_delay;
mod used_names;
mod wire;
mod wire_block;

pub use driver::clause_12;
pub use path_delay::{PathDelay, path_delays};
pub use wire::{Wire, wire_of};
pub use wire_block::clause_6;
