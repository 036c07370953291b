//! The clauses of Level 1 of VITAL (IEEE 1076.4) that speak of declarations alone.
#![tactic(auto)]

mod breaking;
mod clauses;
mod good_constant;
mod region;
mod scope;

pub use breaking::is_level_literal;
pub use clauses::{clause_2, clause_3, clause_4, clause_9, clause_17, clause_18};
pub use good_constant::{is_good_constant, is_symbol};
pub use region::{Region, regions};
pub use scope::Scope;
