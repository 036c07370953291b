//! The nine levels of IEEE 1164, how they are written, and the tables of their operators.
#![tactic(auto)]

mod level;
mod tables;

pub use level::{Level, from_byte, to_byte};
pub use tables::{and2, not1, or2, resolve, resolve2, to_ux01, to_x01, to_x01z, xor2};
