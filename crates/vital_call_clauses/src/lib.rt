//! L1.14, the clause of Level 1 of VITAL (IEEE 1076.4) that speaks of calls: their items are for the formals of what is called.
#![tactic(auto)]

mod clauses;
mod wrong_call;

pub use clauses::clause_14;
pub use wrong_call::{has_vector_result, is_wrong_for};
