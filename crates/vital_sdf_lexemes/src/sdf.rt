//! The lexicon of SDF.

ghost use Rattle.std.specs.Prelude.{◌≡◌, ◌<◌, ◌≤◌, ℕ, List, length, None, option_map, Result, IfOk};
ghost use Rattle.vital_lex.specs.Outcome.{Gives, IsOutcome};
ghost use Rattle.vital_lex.specs.Pieces.{Lexes, LexFault};
ghost use Rattle.vital_sdf_lexemes.specs.Sdf.{sdf};
ghost use Rattle.vital_sdf_lexemes.specs.SdfLaws.{sdf_is_lexicon};

use crate::kinds::Kind;
use crate::lexemes::lexeme;
use crate::separators::separator_length;
use std::alloc::Global;
use vital_lex::{Found, LexError, Lexicon, TextFault, Token, Tokens, Why, lex};

/// The lexicon of SDF (IEEE 1497).
pub struct Sdf;

impl Lexicon for Sdf {
    type Kind = Kind;

    ghost lexicon = { sdf };

    fn pass_separators(text: &[u8], at: usize) -> usize {
        let mut end = at;
        while let Some(count) = separator_length(&text[end..]) {
            end += count;
        }
        end
    }

    fn lexeme_at(text: &[u8], at: usize, before: Option<Kind>) -> Option<Found<Kind>>
        requires inside { at < length text.now }
        requires no_separator { sdf.separator text.now at ≡ None }
        ensures { option_map (λ found. (found.kind, found.end)) result ≡ sdf.lexeme before text.now at }
    {
        let (kind, count) = lexeme(&text[at..], before)?;
        Some(Found {
            kind,
            end: at + count,
        })
    }

    fn why(text: &[u8], at: usize) -> Why {
        match text[at] {
            b'"' | b'/' => Why::Unclosed,
            _ => Why::Character,
        }
    }

    fn nesting_after(before: Option<Kind>, nesting: u32, kind: Kind) -> u32
        requires { nesting ≤ 64 }
        ensures { result ≡ sdf.nesting_after before nesting kind }
    {
        let _ = before;
        match kind {
            Kind::LeftParenthesis => nesting + 1,
            Kind::RightParenthesis => nesting.saturating_sub(1),
            _ => nesting,
        }
    }

    fn number(kind: Kind) -> u16 {
        kind.number()
    }

    ghost is_lexicon = { sdf_is_lexicon };
}

/// The tokens of an SDF text, at most `room` of them, or the first fault or limit.
///
/// Its nesting, the number of open parentheses, is at most 64. A text is refused at the first offset where nothing fits, where a
/// token begins that there is no room for, or where one makes the nesting 65; the lack of room comes first where both stand at one
/// offset.
pub fn lex_sdf(alloc: Global, text: &[u8], room: u32) -> Result<Tokens, LexError>
    requires { length text.now ≤ 16777216 }
    // The tokens are the lexemes of the whole text.
    ensures lexes { IfOk result (Lexes sdf text.now) }
    // And they are within the limits.
    ensures read { IfOk result (λ tokens. IsOutcome sdf text.now room (Ok tokens)) }
    // A fault stands where nothing fits after a row of pieces.
    ensures faults { (offset : ℕ) (why : Why) → result ≡ Err (LexError.Text (TextFault.Fault offset why)) → LexFault sdf text.now offset }
    // A refusal, a fault or a limit, stands where the text is refused so.
    ensures refused { (fault : TextFault) → result ≡ Err (LexError.Text fault) → IsOutcome sdf text.now room (Err fault) }
    // Whatever comes of the text is the answer, unless memory runs out.
    ensures only { (outcome : Result (List Token) TextFault) → IsOutcome sdf text.now room outcome → Gives result outcome }
{
    lex::<Sdf>(alloc, text, room)
}
