//! The variables of processes that are used or assigned once more than they may be: clause L1.13 of Level 1 of VITAL (IEEE 1076.4).
#![tactic(auto)]

mod formal_use;
mod given;
mod meant;
mod second_uses;
mod variables;

pub use second_uses::clause_13;
