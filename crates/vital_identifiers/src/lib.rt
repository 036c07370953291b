//! Basic identifiers of VHDL: which bytes write one.
#![tactic(auto)]

mod identifier;

pub use identifier::is_basic_identifier;
