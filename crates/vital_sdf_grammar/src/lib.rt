//! The grammar of SDF files, the table by which it is read, and the law that each list of tokens has one reading by it.
#![tactic(auto)]

mod grammar;
mod laws;
mod table;

pub use laws::one_reading;
pub use table::sdf_rules;
