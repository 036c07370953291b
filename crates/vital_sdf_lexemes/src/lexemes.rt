//! The lexeme that begins a text.

ghost use Rattle.std.specs.Prelude.{◌≡◌, ◌≤◌, length, IfSome};
ghost use Rattle.vital_sdf_lexemes.specs.Lexemes as spec;
ghost use Rattle.vital_sdf_lexemes.specs.WordKinds as words;
ghost use Rattle.vital_sdf_lexemes.specs.Words.{word_length};

use crate::keywords::keyword;
use crate::kinds::Kind;
use crate::numbers::is_number;
use crate::words::word_length;

/// How many bytes there are up to and with the next `"`, if one stands before the next LF.
fn quoted_length(bytes: &[u8]) -> Option<usize>
    ensures count { result ≡ spec.quoted_length bytes.now }
    ensures within { IfSome result (λ count. count ≤ length bytes.now) }
{
    let mut rest = bytes;
    let mut count = 0;
    while let [first, after @ ..] = rest {
        count += 1;
        match *first {
            b'"' => return Some(count),
            b'\n' => return None,
            _ => rest = after,
        }
    }
    None
}

/// The kind of a word, where `before` is the kind of the token before it.
fn word_kind(before: Option<Kind>, word: &[u8]) -> Kind
    ensures { result ≡ words.word_kind before word.now }
{
    if let Some(Kind::LeftParenthesis) = before {
        if let Some(kind) = keyword(word) {
            return kind;
        }
    }
    if is_number(word) {
        Kind::Number
    } else {
        Kind::Word
    }
}

/// The word that begins here, if one does: its kind, and how many bytes it has.
fn word(bytes: &[u8], before: Option<Kind>) -> Option<(Kind, usize)>
    ensures lexeme { result ≡ spec.word_of before bytes.now (word_length bytes.now) }
    ensures within { IfSome result (λ lexeme. lexeme.1 ≤ length bytes.now) }
{
    let count = word_length(bytes);
    if count == 0 {
        None
    } else {
        Some((word_kind(before, &bytes[..count]), count))
    }
}

/// The lexeme that begins here, if one does: its kind, and how many bytes it has.
pub fn lexeme(bytes: &[u8], before: Option<Kind>) -> Option<(Kind, usize)>
    ensures lexeme { result ≡ spec.lexeme before bytes.now }
    ensures within { IfSome result (λ lexeme. lexeme.1 ≤ length bytes.now) }
{
    match bytes {
        [] => None,
        [b'(', ..] => Some((Kind::LeftParenthesis, 1)),
        [b')', ..] => Some((Kind::RightParenthesis, 1)),
        [b':', ..] => Some((Kind::Colon, 1)),
        [b'"', after @ ..] => Some((Kind::Text, 1 + quoted_length(after)?)),
        _ => word(bytes, before),
    }
}
