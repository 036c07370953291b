//! Delimiters (IEEE 1076-1993, 13.2).

ghost use Rattle.std.specs.Prelude.{◌≡◌, [], ◌∷◌};
ghost use Rattle.vital_vhdl_lexemes.specs.Delimiters.{delimiters};
ghost use Rattle.vital_vhdl_lexemes.specs.Forms.{kind_in};

use crate::kinds::Kind;

/// The delimiter of these two bytes, if they are one.
pub fn compound_delimiter(first: u8, second: u8) -> Option<Kind>
    ensures { result ≡ kind_in delimiters (first ∷ second ∷ []) }
{
    match (first, second) {
        (b'=', b'>') => Some(Kind::Arrow),
        (b':', b'=') => Some(Kind::Assign),
        (b'<', b'=') => Some(Kind::LessOrEqual),
        (b'>', b'=') => Some(Kind::GreaterOrEqual),
        (b'/', b'=') => Some(Kind::NotEqual),
        (b'*', b'*') => Some(Kind::DoubleStar),
        (b'<', b'>') => Some(Kind::Box),
        _ => None,
    }
}

/// The delimiter of this one byte, if it is one.
pub fn delimiter(byte: u8) -> Option<Kind>
    ensures { result ≡ kind_in delimiters (byte ∷ []) }
{
    match byte {
        b'&' => Some(Kind::Ampersand),
        b'(' => Some(Kind::LeftParenthesis),
        b')' => Some(Kind::RightParenthesis),
        b'*' => Some(Kind::Star),
        b'+' => Some(Kind::Plus),
        b',' => Some(Kind::Comma),
        b'-' => Some(Kind::Minus),
        b'.' => Some(Kind::Dot),
        b'/' => Some(Kind::Slash),
        b':' => Some(Kind::Colon),
        b';' => Some(Kind::Semicolon),
        b'<' => Some(Kind::Less),
        b'=' => Some(Kind::Equal),
        b'>' => Some(Kind::Greater),
        b'|' => Some(Kind::Bar),
        _ => None,
    }
}
