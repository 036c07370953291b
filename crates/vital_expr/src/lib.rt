//! Expressions in cells as typed trees: levels and vectors, conditions, times and delays.
#![tactic(auto)]

mod booleans;
mod calls;
mod delays;
mod equality;
mod lengths;
mod level_forms;
mod levels;
mod reader;
mod side;
mod tables;
mod texts;
mod trees;
mod vector_forms;
mod vectors;

pub use booleans::boolean;
pub use delays::{delay, time};
pub use lengths::length_of;
pub use levels::level;
pub use reader::Reader;
pub use side::Side;
pub use texts::text;
pub use trees::Trees;
pub use vectors::vector;
