//! Reading by any predictive grammar: rules over numbers of token kinds, the one derivation of a list of tokens, and the
//! first token that no sentence goes on with.
#![tactic(auto)]

mod beginnings;
mod blocks;
mod derivation;
mod expansion;
mod grammar;
mod laws;
mod listing;
mod marks;
mod passes;
mod pending;
mod prediction;
mod reading;
mod rows;
mod sets;
mod table;
mod width;

pub use derivation::{Step, Tree};
pub use grammar::{Alternative, Rule, RuleList, Sym};
pub use laws::{masks_decide, masks_hold, one_reading, ranks_derive};
pub use prediction::{Rules, RulesError};
pub use reading::{ParseError, parse};
