//! Reading a whole text.

ghost use Rattle.std.specs.Prelude.{All, AllPairs, ◌≡◌, ◌<◌, ◌≤◌, ℕ, List, length, None, Some, Result, OnOk, IfOk};
ghost use Rattle.vital_lex.specs.Outcome.{Gives, IsOutcome, IsRefused};
ghost use Rattle.vital_lex.specs.Pieces.{Lexes, LexFault};

use crate::faults::{LexError, TextFault, Why};
use crate::lexicon::{Found, Lexicon};
use crate::token_list::{Token, Tokens};
use std::alloc::Global;

/// How deep a text may be nested.
const DEPTH: u32 = 64;

/// A text that is read up to an offset.
#[derive(Drop)]
struct Lexer<'a, K> {
    text: &'a [u8],
    room: u32,
    /// Up to here the text is read.
    at: usize,
    /// The tokens so far.
    tokens: Vec<Token>,
    /// The kind of the last of them.
    before: Option<K>,
    /// The nesting after them.
    nesting: u32,
}

impl<K: Copy> Lexer<'_, K> {
    ghost use Rattle.vital_lex.specs.Reading.{IsReading};

    /// Takes the lexeme that was found at `at`, if it is within the limits.
    fn take<L: Lexicon<Kind = K>>(&mut self, found: Found<K>) -> Result<(), LexError>
        requires reading { IsReading L.lexicon self.old }
        requires separated { L.lexicon.separator self.old.text.now self.old.at ≡ None }
        requires lexeme { L.lexicon.lexeme self.old.before self.old.text.now self.old.at ≡ Some (found.kind, found.end) }
        ensures same { (self.new.text.now ≡ self.old.text.now) × (self.new.room ≡ self.old.room) }
        ensures ok { OnOk result (IsReading L.lexicon self.new × (self.old.at < self.new.at)) }
        ensures refused { (fault : TextFault) → result ≡ Err (LexError.Text fault) → IsRefused L.lexicon self.old.text.now self.old.room fault }
    {
        let offset = self.at as u32;
        if self.tokens.len() == self.room as usize {
            return Err(LexError::Text(TextFault::TooManyTokens { offset }));
        }
        let nesting = L::nesting_after(self.before, self.nesting, found.kind);
        if nesting > DEPTH {
            return Err(LexError::Text(TextFault::TooDeep { offset }));
        }
        self.tokens.push(Token {
            kind: L::number(found.kind),
            start: offset,
            end: found.end as u32,
        })?;
        self.at = found.end;
        self.before = Some(found.kind);
        self.nesting = nesting;
        Ok(())
    }

    /// Passes over the separators at `at`.
    fn pass_separators<L: Lexicon<Kind = K>>(&mut self)
        requires { IsReading L.lexicon self.old }
        ensures same { (self.new.text.now ≡ self.old.text.now) × (self.new.room ≡ self.old.room) }
        ensures reading { IsReading L.lexicon self.new }
        ensures forward { self.old.at ≤ self.new.at }
        ensures stops { L.lexicon.separator self.new.text.now self.new.at ≡ None }
    {
        self.at = L::pass_separators(self.text, self.at);
    }

    /// Takes the lexeme at `at`, where no separator begins.
    fn advance<L: Lexicon<Kind = K>>(&mut self) -> Result<(), LexError>
        requires reading { IsReading L.lexicon self.old }
        requires inside { self.old.at < length self.old.text.now }
        requires separated { L.lexicon.separator self.old.text.now self.old.at ≡ None }
        ensures same { (self.new.text.now ≡ self.old.text.now) × (self.new.room ≡ self.old.room) }
        ensures ok { OnOk result (IsReading L.lexicon self.new × (self.old.at < self.new.at)) }
        ensures refused { (fault : TextFault) → result ≡ Err (LexError.Text fault) → IsRefused L.lexicon self.old.text.now self.old.room fault }
    {
        match L::lexeme_at(self.text, self.at, self.before) {
            Some(found) => self.take::<L>(found),
            None => Err(LexError::Text(TextFault::Fault {
                offset: self.at as u32,
                why: L::why(self.text, self.at),
            })),
        }
    }
}

/// The tokens of a text, at most `room` of them, or the first fault or limit.
///
/// Its lexemes are those of the lexicon, and its nesting is at most 64. A text is refused at the first offset where nothing
/// fits, where a token begins that there is no room for, or where one makes the nesting 65; the lack of room comes first
/// where both stand at one offset.
pub fn lex<L: Lexicon>(alloc: Global, text: &[u8], room: u32) -> Result<Tokens, LexError>
    requires { length text.now ≤ 16777216 }
    // The tokens are the lexemes of the whole text.
    ensures lexes { IfOk result (Lexes L.lexicon text.now) }
    // And they are within the limits.
    ensures read { IfOk result (λ tokens. IsOutcome L.lexicon text.now room (Ok tokens)) }
    // A fault stands where nothing fits after a row of pieces.
    ensures faults { (offset : ℕ) (why : Why) → result ≡ Err (LexError.Text (TextFault.Fault offset why)) → LexFault L.lexicon text.now offset }
    // A refusal, a fault or a limit, stands where the text is refused so.
    ensures refused { (fault : TextFault) → result ≡ Err (LexError.Text fault) → IsOutcome L.lexicon text.now room (Err fault) }
    // Whatever comes of the text is the answer, unless memory runs out.
    ensures only { (outcome : Result (List Token) TextFault) → IsOutcome L.lexicon text.now room outcome → Gives result outcome }
{
    let mut lexer = Lexer {
        text,
        room,
        at: 0,
        tokens: Vec::new(alloc),
        before: None,
        nesting: 0,
    };
    lexer.pass_separators::<L>();
    while lexer.at < text.len() {
        lexer.advance::<L>()?;
        lexer.pass_separators::<L>();
    }
    Ok(Tokens::from_vec(lexer.tokens))
}

/// A text with a room has exactly one outcome, so a call's answer has its cause and each cause its answer: a law, called for
/// its clause.
pub fn one_outcome<L: Lexicon>()
    ensures { (text : List ℕ) (room : ℕ) → (outcome : Result (List Token) TextFault) × IsOutcome L.lexicon text room outcome
        × ((other : Result (List Token) TextFault) → IsOutcome L.lexicon text room other → other ≡ outcome) }
{}

/// The tokens of a text start one behind the other, within the text: a law, called for its clauses.
pub fn tokens_rise<L: Lexicon>()
    ensures rise { (text : List ℕ) (tokens : List Token) → Lexes L.lexicon text tokens → AllPairs (λ s t. s.start < t.start) tokens }
    ensures within { (text : List ℕ) (tokens : List Token) → Lexes L.lexicon text tokens → All (λ t. t.start < length text) tokens }
{}
