//! Tables of VITAL (IEEE 1076.4, package VITAL_Primitives, VitalTruthTable and VitalStateTable): the first row that matches, by masks of
//! the rows, and what it gives.
#![tactic(auto)]

mod columns;
mod mask_table;
mod masks;
mod row_mask;
mod symbol;
mod table;

pub use mask_table::MaskTable;
pub use table::Table;
