//! The lexemes of an SDF text.
#![tactic(auto)]

mod keywords;
mod kinds;
mod lexemes;
mod numbers;
mod sdf;
mod separators;
mod words;

pub use kinds::Kind;
pub use sdf::{Sdf, lex_sdf};
