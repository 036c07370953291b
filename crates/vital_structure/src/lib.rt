//! A netlist unit by itself (IEEE 1076-1993, clause 1): its ports and signals with their types and defaults, the first fault of what it
//! declares, and its statements.
#![tactic(auto)]

mod content;
mod contents;
mod faults;
mod part;
mod shape;
mod signal_type;
mod statement;
mod structure;
mod unit_signal;

pub use faults::UnitFault;
pub use part::{Part, part_behind};
pub use shape::{Shape, is_null, shape_of_port};
pub use signal_type::level_literal;
pub use statement::Statement;
pub use structure::{Structure, StructureError};
pub use unit_signal::UnitSignal;
