//! The lexicon of VHDL.

ghost use Rattle.std.specs.Prelude.{◌≡◌, ◌<◌, ◌≤◌, ℕ, List, Result, IfOk, length, None, Ok, Err, option_map};
ghost use Rattle.vital_lex.specs.Outcome.{Gives, IsOutcome};
ghost use Rattle.vital_lex.specs.Pieces.{Lexes, LexFault};
ghost use Rattle.vital_vhdl_lexemes.specs.LexiconLaws.{vhdl_is_lexicon};
ghost use Rattle.vital_vhdl_lexemes.specs.Vhdl.{vhdl};

use crate::ends::separators_end;
use crate::kinds::Kind;
use crate::lexemes::lexeme_at;
use std::alloc::Global;
use vital_lex::{Found, LexError, Lexicon, TextFault, Token, Tokens, Why, lex};

/// The separators and lexemes of VHDL (IEEE 1076-1993, clause 13).
pub struct Vhdl;

impl Lexicon for Vhdl {
    type Kind = Kind;

    ghost lexicon = { vhdl };

    fn pass_separators(text: &[u8], at: usize) -> usize {
        separators_end(text, at)
    }

    fn lexeme_at(text: &[u8], at: usize, before: Option<Kind>) -> Option<Found<Kind>>
        requires inside { at < length text.now }
        requires no_separator { vhdl.separator text.now at ≡ None }
        ensures { option_map (λ found. (found.kind, found.end)) result ≡ vhdl.lexeme before text.now at }
    {
        lexeme_at(text, at, before)
    }

    fn why(text: &[u8], at: usize) -> Why {
        match text[at] {
            b'"' | b'\\' => Why::Unclosed,
            _ => Why::Character,
        }
    }

    fn nesting_after(before: Option<Kind>, nesting: u32, kind: Kind) -> u32
        requires { nesting ≤ 64 }
        ensures { result ≡ vhdl.nesting_after before nesting kind }
    {
        match kind {
            Kind::LeftParenthesis => nesting + 1,
            Kind::RightParenthesis => nesting.saturating_sub(1),
            Kind::If | Kind::Block => match before {
                Some(Kind::End) => nesting.saturating_sub(1),
                _ => nesting + 1,
            },
            _ => nesting,
        }
    }

    fn number(kind: Kind) -> u16 {
        kind.number()
    }

    ghost is_lexicon = { vhdl_is_lexicon };
}

/// The tokens of a VHDL text, at most `room` of them, or the first fault or limit.
///
/// Its lexemes are those of IEEE 1076-1993, clause 13. The nesting of parentheses, `if` and `block` is at most 64. A text
/// is refused at the first offset where nothing fits, where a token begins that there is no room for, or where one makes
/// the nesting 65; the lack of room comes first where both stand at one offset.
pub fn lex_vhdl(alloc: Global, text: &[u8], room: u32) -> Result<Tokens, LexError>
    requires { length text.now ≤ 16777216 }
    // The tokens are the lexemes of the whole text.
    ensures lexes { IfOk result (Lexes vhdl text.now) }
    // And they are within the limits.
    ensures read { IfOk result (λ tokens. IsOutcome vhdl text.now room (Ok tokens)) }
    // A fault stands where nothing fits after a row of pieces.
    ensures faults { (offset : ℕ) (why : Why) → result ≡ Err (LexError.Text (TextFault.Fault offset why)) → LexFault vhdl text.now offset }
    // A refusal, a fault or a limit, stands where the text is refused so.
    ensures refused { (fault : TextFault) → result ≡ Err (LexError.Text fault) → IsOutcome vhdl text.now room (Err fault) }
    // Whatever comes of the text is the answer, unless memory runs out.
    ensures only { (outcome : Result (List Token) TextFault) → IsOutcome vhdl text.now room outcome → Gives result outcome }
{
    lex::<Vhdl>(alloc, text, room)
}
