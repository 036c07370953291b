//! The lexemes of a VHDL text.
#![tactic(auto)]

mod bytes;
mod delimiters;
mod ends;
mod kinds;
mod laws;
mod lexemes;
mod lexicon;
mod words;

pub use kinds::Kind;
pub use laws::tokens_are_lexemes;
pub use lexicon::{Vhdl, lex_vhdl};
pub use words::reserved_words_in_order;
