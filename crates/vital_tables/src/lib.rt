//! Tables of VITAL (IEEE 1076.4, package VITAL_Primitives) as rows of symbols, and which symbols a column may have.
#![tactic(auto)]

mod symbol;
mod table;

pub use symbol::{is_among, is_edge_symbol};
pub use table::{Table, table_of};
