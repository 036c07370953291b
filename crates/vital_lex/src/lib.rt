//! Reading a text piece by piece: its tokens by any lexicon, and its lines and columns.
#![tactic(auto)]

mod faults;
mod lexer;
mod lexicon;
mod text_position;
mod token_list;

pub use faults::{LexError, TextFault, Why};
pub use lexer::{lex, one_outcome, tokens_rise};
pub use lexicon::{Found, Lexicon};
pub use text_position::{TextPosition, line_column};
pub use token_list::{Token, Tokens};
