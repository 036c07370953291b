//! The lexeme at an offset.

ghost use Rattle.std.specs.Prelude.{◌≡◌, ◌<◌, false, length, slice_index, Option};
ghost use Rattle.vital_vhdl_lexemes.specs.Finding.{begins_word_or_literal, IsCompound, IsFound};
ghost use Rattle.vital_vhdl_lexemes.specs.Forms.{takes_tick};

use crate::bytes::is_graphic;
use crate::delimiters::{compound_delimiter, delimiter};
use crate::ends::{identifier_end, number_end, quoted_end};
use crate::kinds::Kind;
use crate::words::word_kind;
use vital_lex::Found;

/// Whether an apostrophe after a token of this kind is a tick.
fn takes_tick(before: Option<Kind>) -> bool
    ensures { result ≡ takes_tick before }
{
    matches!(
        before,
        Some(Kind::Identifier | Kind::ExtendedIdentifier | Kind::RightParenthesis)
    )
}

/// The extended identifier at a backslash.
fn extended_identifier_at(text: &[u8], at: usize) -> Option<Found<Kind>>
    requires inside { at < length text.now }
    requires backslash { slice_index text.now at ≡ 92 }
    ensures { (before : Option Kind) → IsFound before text.now at result }
{
    let end = quoted_end(text, at + 1, b'\\')?;
    // `\\` has nothing between its marks.
    if end == at + 2 {
        return None;
    }
    Some(Found {
        kind: Kind::ExtendedIdentifier,
        end,
    })
}

/// The string literal at a quotation mark.
fn string_literal_at(text: &[u8], at: usize) -> Option<Found<Kind>>
    requires inside { at < length text.now }
    requires mark { slice_index text.now at ≡ 34 }
    ensures { (before : Option Kind) → IsFound before text.now at result }
{
    let end = quoted_end(text, at + 1, b'"')?;
    Some(Found {
        kind: Kind::StringLiteral,
        end,
    })
}

/// The tick or the character literal at an apostrophe.
fn apostrophe_at(text: &[u8], at: usize, before: Option<Kind>) -> Option<Found<Kind>>
    requires inside { at < length text.now }
    requires apostrophe { slice_index text.now at ≡ 39 }
    ensures { IsFound before text.now at result }
{
    if takes_tick(before) {
        return Some(Found {
            kind: Kind::Tick,
            end: at + 1,
        });
    }
    if at + 2 < text.len() && is_graphic(text[at + 1]) && text[at + 2] == b'\'' {
        return Some(Found {
            kind: Kind::CharacterLiteral,
            end: at + 3,
        });
    }
    None
}

/// The delimiter of the byte at `at` and the one after it, if they are one.
fn compound_delimiter_at(text: &[u8], at: usize) -> Option<Kind>
    requires { at < length text.now }
    ensures { IsCompound text.now at result }
{
    if at + 1 < text.len() {
        compound_delimiter(text[at], text[at + 1])
    } else {
        None
    }
}

/// The delimiter at a byte that begins nothing else.
fn delimiter_at(text: &[u8], at: usize) -> Option<Found<Kind>>
    requires inside { at < length text.now }
    requires other { begins_word_or_literal (slice_index text.now at) ≡ false }
    ensures { (before : Option Kind) → IsFound before text.now at result }
{
    if let Some(kind) = compound_delimiter_at(text, at) {
        return Some(Found { kind, end: at + 2 });
    }
    let kind = delimiter(text[at])?;
    Some(Found { kind, end: at + 1 })
}

/// The longest lexeme at `at`, if one fits, where `before` is the kind of the token before it.
pub fn lexeme_at(text: &[u8], at: usize, before: Option<Kind>) -> Option<Found<Kind>>
    requires { at < length text.now }
    ensures { IsFound before text.now at result }
{
    let first = text[at];
    if first.is_ascii_alphabetic() {
        let end = identifier_end(text, at);
        let kind = word_kind(&text[at..end]);
        return Some(Found { kind, end });
    }
    if first.is_ascii_digit() {
        let end = number_end(text, at);
        return Some(Found {
            kind: Kind::Number,
            end,
        });
    }
    match first {
        b'\\' => extended_identifier_at(text, at),
        b'"' => string_literal_at(text, at),
        b'\'' => apostrophe_at(text, at, before),
        _ => delimiter_at(text, at),
    }
}
