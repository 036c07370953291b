//! What logical operators, conversions and the primitives of VITAL (IEEE 1076.4) give for levels (IEEE 1164).
#![tactic(auto)]

mod operator;
mod primitives;

pub use operator::{converted, operated};
pub use primitives::primitive;
