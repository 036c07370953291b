//! What units a derivation of a VHDL file gives, rule by rule of its grammar, and the laws of this.
#![tactic(auto)]

mod laws;

pub use laws::{file_is_read, nodes_stand, rules_are_taken};
