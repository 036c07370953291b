//! Tokens, and lists of them.

ghost use Rattle.std.specs.Prelude.{◌≡◌};

use std::marker::Model;

/// A lexeme of a text, by the number of its kind and its place.
#[derive(Clone, Copy, PartialEq, Eq)]
pub struct Token {
    /// The number of its kind, as `Kind::number` gives it.
    pub kind: u16,
    /// The offset of its first byte, from 0.
    pub start: u32,
    /// The offset after its last byte.
    pub end: u32,
}

/// Tokens in the order in which they stand in a text.
#[derive(Drop)]
pub struct Tokens {
    items: Vec<Token>,
}

impl Model for Tokens {
    ghost use Rattle.std.specs.Prelude.{List};
    ghost use Rattle.vital_lex.specs.declared.token_list.Token.{Token};

    ghost Value = { List Token };

    ghost view = { λ t. t.items.items };
}

impl Tokens {
    /// The list of these tokens.
    pub fn from_vec(items: Vec<Token>) -> Self
        ensures { result ≡ items.items }
    {
        Tokens { items }
    }

    /// The tokens, in order.
    pub fn as_slice(&self) -> &[Token]
        ensures { result.now ≡ self.now }
    {
        self.items.as_slice()
    }

    /// The tokens as a `Vec`, in order. It takes no memory.
    pub fn into_vec(self) -> Vec<Token>
        ensures { result.items ≡ self }
    {
        self.items
    }
}
