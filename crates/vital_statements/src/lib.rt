//! The clauses of Level 1 of VITAL (IEEE 1076.4) that speak of the kinds of statements in an architecture and in its processes, and
//! of their order; and what statements call.
#![tactic(auto)]

mod attribute;
mod call;
mod operand;
mod parentheses;
mod places;
mod section;
mod sensitivity;
mod site;
mod statement;
mod statement_list;
mod timing_check;

pub use attribute::clause_1;
pub use call::{call_of_conc, call_of_stmt, procedure_of};
pub use operand::{means_read_port, means_signal};
pub use parentheses::bare_identifier;
pub use places::put_if;
pub use section::clause_10;
pub use sensitivity::clause_7;
pub use site::site_at;
pub use statement::{LabelledBlock, as_block, as_process, statements_of};
pub use statement_list::clause_5;
pub use timing_check::clause_11;
