//! A cursor over the tokens of a file.

ghost use Rattle.std.specs.Prelude.{◌≡◌, ◌≤◌, Ok, length, take, drop};
ghost use Rattle.vital_sdf.specs.Headers.{first_divider, first_power};
ghost use Rattle.vital_sdf.specs.Reading as spec;
ghost use Rattle.vital_sdf.specs.Reading.{next_token, spelling_of, between_quotes};

use std::marker::Model;
use vital_base::Place;
use vital_lex::{TextPosition, Token};
use vital_sdf_lexemes::Kind;

/// What is left to read of a file, with what its header says so far: contracts see the tokens from the next one on, the text and
/// the number of the file, and the divider and the unit that count.
#[derive(Drop)]
pub(crate) struct Cursor<'a> {
    tokens: &'a [Token],
    text: &'a [u8],
    file: u32,
    divider: u8,
    /// The unit of values, as a power of ten of femtoseconds.
    power: u32,
    /// The position of the place that was asked for last.
    position: TextPosition,
}

impl<'a> Model for Cursor<'a> {
    ghost use Rattle.vital_sdf.specs.Reading.{Input};

    ghost Value = { Input };

    ghost use Rattle.vital_sdf.specs.Cursors.{input_of, IsReady};

    ghost view = { input_of };

    ghost invariant = { IsReady };
}

/// The kind of no token.
const NO_KIND: u16 = u16::MAX;

/// No token, which stands for the one behind the last.
pub(crate) const NO_TOKEN: Token = Token {
    kind: NO_KIND,
    start: 0,
    end: 0,
};

const LEFT_PARENTHESIS: u16 = Kind::LeftParenthesis as u16;

const RIGHT_PARENTHESIS: u16 = Kind::RightParenthesis as u16;

impl<'a> Cursor<'a> {
    /// The cursor at the beginning of a file.
    pub(crate) fn new(file: u32, text: &'a [u8], tokens: &'a [Token]) -> Cursor<'a>
        requires { length text.now ≤ 16777216 }
        ensures { result ≡ record { tokens = tokens.now; text = text.now; file = file; divider = first_divider; power = first_power } }
    {
        Cursor {
            tokens,
            text,
            file,
            divider: b'.',
            power: 6,
            position: TextPosition::start(text),
        }
    }

    /// How many tokens are left.
    #[tactic(auto, unfolding(crate::specs::Reading::left))]
    pub(crate) fn left(&self) -> usize
        ensures { result ≡ spec.left self.now }
    {
        self.tokens.len()
    }

    /// The tokens that are left.
    pub(crate) fn tokens(&self) -> &'a [Token]
        ensures { result.now ≡ self.now.tokens }
    {
        self.tokens
    }

    /// The next token.
    #[tactic(auto, unfolding(crate::specs::Reading::next_token))]
    pub(crate) fn token(&self) -> Token
        ensures { result ≡ next_token self.now }
    {
        match self.tokens {
            [] => NO_TOKEN,
            [token, ..] => *token,
        }
    }

    /// The kind of the next token.
    pub(crate) fn kind(&self) -> u16
        ensures { result ≡ (next_token self.now).kind }
    {
        self.token().kind
    }

    /// Passes over a token.
    #[tactic(auto, unfolding(crate::specs::Reading::past_token))]
    pub(crate) fn skip(&mut self)
        ensures { spec.skip self.old ≡ Ok (tt, self.new) }
    {
        if let [_, rest @ ..] = self.tokens {
            self.tokens = rest;
        }
    }

    /// Takes a token for its kind.
    pub(crate) fn take(&mut self) -> u16
        ensures { spec.taken self.old ≡ Ok (result, self.new) }
    {
        let kind = self.kind();
        self.skip();
        kind
    }

    /// The place of the next token.
    #[tactic(auto, unfolding(crate::specs::Reading::next_place, crate::specs::Reading::place_at))]
    pub(crate) fn place(&mut self) -> Place
        ensures { spec.place self.old ≡ Ok (result, self.new) }
    {
        let offset = self.token().start;
        if self.position.offset != offset as usize {
            self.position = self.position.seek(self.text, offset);
        }
        Place {
            file: self.file,
            line: self.position.line,
            column: self.position.column,
        }
    }

    /// The bytes of a token.
    pub(crate) fn bytes_of(&self, token: Token) -> &'a [u8]
        ensures { result.now ≡ spelling_of self.now.text token }
    {
        let end = (token.end as usize).min(self.text.len());
        let start = (token.start as usize).min(end);
        &self.text[start..end]
    }

    /// Takes a token for its bytes.
    pub(crate) fn spelling(&mut self) -> &'a [u8]
        ensures { spec.spelling self.old ≡ Ok (result.now, self.new) }
    {
        let bytes = self.bytes_of(self.token());
        self.skip();
        bytes
    }

    /// Takes a string for what it quotes.
    pub(crate) fn quoted(&mut self) -> &'a [u8]
        ensures { spec.quoted self.old ≡ Ok (result.now, self.new) }
    {
        let token = self.token();
        let end = (token.end as usize).saturating_sub(1).min(self.text.len());
        let start = (token.start as usize + 1).min(end);
        let bytes = &self.text[start..end];
        self.skip();
        bytes
    }

    /// The divider that counts here.
    pub(crate) fn divider(&self) -> u8
        ensures { result ≡ self.now.divider }
    {
        self.divider
    }

    /// The unit that counts here, as a power of ten of femtoseconds.
    pub(crate) fn power(&self) -> u32
        ensures power { result ≡ self.now.power }
        ensures bound { result ≤ 17 }
    {
        self.power
    }

    /// Another divider counts from here on.
    pub(crate) fn set_divider(&mut self, divider: u8)
        ensures { self.new ≡ record self.old { divider = divider } }
    {
        self.divider = divider;
    }

    /// Another unit counts from here on.
    pub(crate) fn set_power(&mut self, power: u32)
        requires { power ≤ 17 }
        ensures { self.new ≡ record self.old { power = power } }
    {
        self.power = power;
    }

    /// Takes so many tokens, or all where there are fewer.
    pub(crate) fn front(&mut self, count: usize) -> &'a [Token]
        ensures taken { result.now ≡ take count self.old.tokens }
        ensures rest { self.new ≡ record self.old { tokens = drop count self.old.tokens } }
    {
        let count = count.min(self.tokens.len());
        let front = &self.tokens[..count];
        self.tokens = &self.tokens[count..];
        front
    }

    /// Takes the tokens up to the parenthesis that closes what is open around them.
    #[tactic(auto, unfolding(crate::specs::Reading::enclosed))]
    pub(crate) fn enclosed(&mut self) -> &'a [Token]
        ensures { spec.enclosed self.old ≡ Ok (result.now, self.new) }
    {
        self.front(closing(self.tokens))
    }
}

/// How many tokens stand before the parenthesis that closes what is open around them.
fn closing(tokens: &[Token]) -> usize
    ensures { result ≡ spec.closing 0 tokens.now }
{
    let mut depth = 0usize;
    for (at, token) in tokens.iter().enumerate() {
        if token.kind == LEFT_PARENTHESIS {
            depth += 1;
        } else if token.kind == RIGHT_PARENTHESIS {
            if depth == 0 {
                return at;
            }
            depth -= 1;
        }
    }
    tokens.len()
}
