//! The levels of cells of VITAL (IEEE 1076.4): where a cell breaks the clauses of Level 1, the first of these breaches, and the verdict.
#![tactic(auto)]

mod breaches;
mod faults;
mod forms;
mod level;
mod package_names;
mod packages;
mod symbols;
mod uses;

pub use level::{CellError, CellLevel, verdict};
pub use packages::Packages;
