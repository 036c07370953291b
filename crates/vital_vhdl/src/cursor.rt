//! A cursor over the derivation and the tokens of a file.

ghost use Rattle.std.specs.Prelude.{◌≡◌, ◌≤◌, length, slice_range, Some, IsTrue, IsFalse};
ghost use Rattle.vital_nodes.specs.IdentifierNames.{IsNamedWell};
ghost use Rattle.vital_shapes.specs.Reading as spec;
ghost use Rattle.vital_shapes.specs.Reading.{next_token};
ghost use Rattle.vital_vhdl.specs.Cursors.{HaveNames, HasName};
ghost use Rattle.vital_vhdl.specs.Levels.{BeginsWithPrimary, at_primary, EndsLevels, past_levels};
ghost use Rattle.vital_vhdl.specs.Reads.{Reads};

use crate::shape_error::ShapeError;
use std::alloc::Global;
use std::marker::Model;
use vital_base::Place;
use vital_lex::{TextPosition, Token};
use vital_ll::Step;
use vital_nodes::{Identifier, IdentifierName};

/// What is left to read of a file: contracts see the steps and the tokens from the next ones on, and the text and the number
/// of the file.
#[derive(Drop)]
pub(crate) struct Cursor<'a> {
    steps: &'a [Step],
    tokens: &'a [Token],
    text: &'a [u8],
    file: u32,
    /// The position of the place that was asked for last.
    position: TextPosition,
}

impl<'a> Model for Cursor<'a> {
    ghost use Rattle.vital_shapes.specs.Reading.{Input};

    ghost Value = { Input };

    ghost use Rattle.vital_vhdl.specs.Cursors.{input_of, IsReady};

    ghost view = { input_of };

    ghost invariant = { IsReady };
}

/// The kind of no token.
const NO_KIND: u16 = u16::MAX;

impl<'a> Cursor<'a> {
    /// The cursor at the beginning of a file.
    pub(crate) fn new(
        file: u32,
        text: &'a [u8],
        tokens: &'a [Token],
        steps: &'a [Step],
    ) -> Cursor<'a>
        requires size { length text.now ≤ 16777216 }
        requires names { HaveNames text.now tokens.now }
        ensures { result ≡ record { steps = steps.now; tokens = tokens.now; text = text.now; file = file } }
    {
        Cursor {
            steps,
            tokens,
            text,
            file,
            position: TextPosition::start(text),
        }
    }

    /// How many steps are left.
    #[tactic(auto, unfolding(vital_shapes::specs::Reading::left))]
    pub(crate) fn left(&self) -> usize
        ensures { result ≡ spec.left self.now }
    {
        self.steps.len()
    }

    /// Takes a step, and says which alternative it chose.
    #[tactic(auto, unfolding(vital_shapes::specs::Reading::alternative, vital_shapes::specs::Reading::past_step))]
    pub(crate) fn choice(&mut self) -> u16
        ensures { spec.choice self.old ≡ Some (result, self.new) }
    {
        match self.steps {
            [] => 0,
            [step, rest @ ..] => {
                self.steps = rest;
                step.alternative
            }
        }
    }

    /// Passes the steps from an expression to its first primary, if it begins with one. They are six: of the expression, its
    /// first relation, sum, sign, term and factor.
    #[tactic(auto, unfolding(vital_shapes::specs::Reading::alternative, vital_shapes::specs::Reading::past_step))]
    pub(crate) fn pass_to_primary(&mut self) -> bool
        ensures passes { IsTrue result → BeginsWithPrimary self.old }
        ensures passed { IsTrue result → self.new ≡ at_primary self.old }
        ensures stays { IsFalse result → self.new ≡ self.old }
    {
        match self.steps {
            [_, _, _, sign, _, factor, rest @ ..]
                if sign.alternative == 0 && factor.alternative != 0 => {
                self.steps = rest;
                true
            }
            _ => false,
        }
    }

    /// Passes the steps that end the four levels of an expression after its primary, if nothing follows it.
    #[tactic(auto, unfolding(vital_shapes::specs::Reading::alternative, vital_shapes::specs::Reading::past_step))]
    pub(crate) fn pass_ends(&mut self) -> bool
        ensures passes { IsTrue result → EndsLevels self.old }
        ensures passed { IsTrue result → self.new ≡ past_levels self.old }
        ensures stays { IsFalse result → self.new ≡ self.old }
    {
        match self.steps {
            [factors, terms, relation, expression, rest @ ..]
                if factors.alternative == 0
                    && terms.alternative == 0
                    && relation.alternative == 0
                    && expression.alternative == 0 => {
                self.steps = rest;
                true
            }
            _ => false,
        }
    }

    /// Passes over a token.
    #[tactic(auto, unfolding(vital_shapes::specs::Reading::past_token))]
    pub(crate) fn skip(&mut self)
        ensures { spec.skip self.old ≡ Some (tt, self.new) }
    {
        if let [_, rest @ ..] = self.tokens {
            self.tokens = rest;
        }
    }

    /// The next token.
    #[tactic(auto, using(crate::proofs::IdentifierNames::named_past_end), unfolding(vital_shapes::specs::Reading::next_token))]
    fn token(&self) -> Token
        ensures next { result ≡ next_token self.now }
        ensures named { HasName self.now.text result }
    {
        match self.tokens {
            [] => Token {
                kind: NO_KIND,
                start: 0,
                end: 0,
            },
            [token, ..] => *token,
        }
    }

    /// The place of the next token.
    #[tactic(auto, unfolding(vital_shapes::specs::Reading::next_place, vital_shapes::specs::Reading::place_at))]
    pub(crate) fn place(&mut self) -> Place
        ensures { spec.place self.old ≡ Some (result, self.new) }
    {
        let offset = self.token().start;
        if self.position.offset != offset as usize {
            self.position = self.position.seek(self.text, offset);
        }
        Place {
            file: self.file,
            line: self.position.line,
            column: self.position.column,
        }
    }

    /// The bytes of a token.
    fn bytes_of(&self, token: Token) -> &'a [u8]
        ensures { result.now ≡ slice_range self.now.text token.start token.end }
    {
        let end = (token.end as usize).min(self.text.len());
        let start = (token.start as usize).min(end);
        &self.text[start..end]
    }

    /// Takes a token for its bytes.
    #[tactic(auto, unfolding(vital_shapes::specs::Reading::next_spelling, vital_shapes::specs::Reading::past_token))]
    pub(crate) fn spelling(&mut self) -> &'a [u8]
        ensures { spec.spelling self.old ≡ Some (result.now, self.new) }
    {
        let bytes = self.bytes_of(self.token());
        self.skip();
        bytes
    }

    /// Takes an identifier for its name.
    #[tactic(auto, unfolding(vital_shapes::specs::Reading::next_name, vital_shapes::specs::Reading::next_spelling))]
    fn name(&mut self, alloc: Global) -> Result<IdentifierName, ShapeError>
        ensures { Reads (spec.name_of_next self.old) result self.new }
    {
        let token = self.token();
        let name = IdentifierName::of_token(alloc, token.kind, self.bytes_of(token))?;
        self.skip();
        match name {
            Some(name) => Ok(name),
            None => Err(ShapeError::NoIdentifier),
        }
    }

    /// Takes an identifier.
    #[tactic(auto, unfolding(vital_shapes::specs::Reading::identifier))]
    pub(crate) fn identifier(&mut self, alloc: Global) -> Result<Identifier, ShapeError>
        ensures { Reads (spec.identifier self.old) result self.new }
    {
        self.choice();
        let place = self.place();
        let name = self.name(alloc)?;
        Ok(Identifier { place, name })
    }
}
