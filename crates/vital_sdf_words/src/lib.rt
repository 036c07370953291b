//! What single words of an SDF file mean: numbers as femtoseconds, conditions as names, paths as parts.
#![tactic(auto)]

mod conditions;
mod decimals;
mod paths;
mod reading;
mod replacement;
mod tidy_name;

pub use conditions::{condition_name, quoted_condition_name};
pub use decimals::femtoseconds;
pub use paths::parts;
