//! Calls of the functions and procedures of VITAL (IEEE 1076.4): their formals, and how the items of a call are matched to them.
#![tactic(auto)]

mod actual_form;
mod call;
mod callee_formals;
mod formal;
mod formal_tables;
mod matching;

pub use actual_form::ActualForm;
pub use call::{Call, call_of};
pub use callee_formals::{formals_of_function, formals_of_procedure, input_count};
pub use formal::{Formal, Formals};
pub use matching::{actual_of, form_of, formal_name, has_wrong_formals};
