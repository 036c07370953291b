//! How a text is refused.

ghost use Rattle.std.specs.Prelude.{◌≡◌};
ghost use Rattle.vital_lex.specs.declared.faults.LexError.TheVariants.{NoMemory};

use std::alloc::AllocFailed;

/// Why nothing fits at an offset.
#[derive(Clone, Copy, Debug, PartialEq, Eq)]
pub enum Why {
    /// No lexeme begins with this character here.
    Character,
    /// What must be closed begins here, as a string or a comment, and is not.
    Unclosed,
}

/// The first fault of a text, or the first limit that it passes. Offsets count bytes from 0.
#[derive(Clone, Copy, Debug, PartialEq, Eq)]
pub enum TextFault {
    /// Neither a separator nor a lexeme fits at the offset.
    Fault { offset: u32, why: Why },
    /// The token at the offset is one more than there is room for.
    TooManyTokens { offset: u32 },
    /// The token at the offset makes the nesting 65.
    TooDeep { offset: u32 },
}

/// Why a text has no tokens.
#[derive(Clone, Copy, Debug, PartialEq, Eq)]
pub enum LexError {
    /// The text is refused.
    Text(TextFault),
    /// There was no memory for the tokens.
    NoMemory,
}

impl<T: Drop> From<AllocFailed<T>> for LexError {
    ghost from_gives = { λ _ e. e ≡ NoMemory };

    fn from(_error: AllocFailed<T>) -> Self {
        LexError::NoMemory
    }
}
