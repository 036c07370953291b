//! Level 0 of VITAL (IEEE 1076.4): how the names of timing generics split, and where an entity breaks a clause.
#![tactic(auto)]

mod breaches;
mod declaration;
mod default_value;
mod default_words;
mod direction;
mod found;
mod generic_clauses;
mod parts;
mod port_clauses;
mod port_index;
mod split;
mod type_name;

pub use breaches::{breaches0, one_first_breach};
pub use declaration::is_true;
pub use default_words::{DefaultWord, default_word};
pub use parts::{Edge, Parts, Prefix};
pub use port_index::PortIndex;
pub use split::{one_splitting, split_generic};
