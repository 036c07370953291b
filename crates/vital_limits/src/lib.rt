//! The limits of one cell: how many ports, rows, columns and paths it has at most, and how long its times are.
#![tactic(auto)]

mod cell;
mod counts;
mod node_limits;
mod packages;
mod passed;
mod text_limits;
mod within_declarations;
mod within_expressions;
mod within_statements;

pub use cell::cell_limit;
pub use node_limits::is_long_table;
pub use packages::{ConstantLimits, constant_limits, constant_meant, named_at};
pub use passed::{CellLimit, PassedLimit, earliest};
pub use text_limits::own_limits;
