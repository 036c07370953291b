//! Actuals of the functions and procedures of VITAL (IEEE 1076.4) and targets of assignments: what they are where a form is asked of
//! them, and where they are not of that form.
#![tactic(auto)]

mod actual;
mod alone;
mod by_name;
mod given;
mod kind;
mod literal;
mod path;
mod target;

pub use actual::{Actual, Path};
pub use by_name::put_fault;
pub use given::{place_given, read_actual};
pub use target::{Target, read_target};
