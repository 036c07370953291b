//! The clauses of Level 1 of VITAL (IEEE 1076.4) that constants of packages break, and where a cell breaks them by naming one.
#![tactic(auto)]

mod breaches;
mod names;
mod tables;

pub use breaches::{ConstantBreaches, breaches_at, constant_breaches};
pub use tables::{is_wrong_in, is_wrong_package};
