//! Lexicons: what the lexemes of a language are.

ghost use Rattle.std.specs.Prelude.{◌≡◌, ◌<◌, ◌≤◌, length, None, option_map};
ghost use Rattle.vital_lex.specs.Lexicon as spec;

use crate::faults::Why;

/// A lexeme that begins at a known offset.
#[derive(Clone, Copy)]
pub struct Found<K> {
    pub kind: K,
    /// The offset after its last byte.
    pub end: usize,
}

/// What the separators and lexemes of a language are, as `lex` asks for them. Offsets count bytes from 0, and `before` is the
/// kind of the token before an offset, if there is one.
pub trait Lexicon {
    /// What a lexeme is.
    type Kind: Copy;

    // The separators and lexemes of the language, and how its tokens nest.
    ghost lexicon: { spec.Lexicon Self.Kind };

    /// The end of the separators at an offset, one behind the other.
    fn pass_separators(text: &[u8], at: usize) -> usize
        requires { at ≤ length text.now }
        ensures { spec.Parted lexicon text.now at result };

    /// The longest lexeme at an offset where no separator begins.
    fn lexeme_at(text: &[u8], at: usize, before: Option<Self::Kind>) -> Option<Found<Self::Kind>>
        requires inside { at < length text.now }
        requires no_separator { lexicon.separator text.now at ≡ None }
        ensures { option_map (λ found. (found.kind, found.end)) result ≡ lexicon.lexeme before text.now at };

    /// Why nothing fits at an offset.
    fn why(text: &[u8], at: usize) -> Why
        requires { at < length text.now }
        ensures { result ≡ lexicon.why text.now at };

    /// The nesting behind a token of a kind.
    fn nesting_after(before: Option<Self::Kind>, nesting: u32, kind: Self::Kind) -> u32
        requires { nesting ≤ 64 }
        ensures { result ≡ lexicon.nesting_after before nesting kind };

    /// The number by which tokens and grammars name a kind.
    fn number(kind: Self::Kind) -> u16
        ensures { result ≡ lexicon.number kind };

    ghost is_lexicon: { spec.IsLexicon lexicon };
}
