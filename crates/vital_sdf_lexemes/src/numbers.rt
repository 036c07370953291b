//! Words that have the form of a number.

ghost use Rattle.std.specs.Prelude.{◌≡◌};
ghost use Rattle.std.specs.Char.{is_ascii_digit};
ghost use Rattle.std.specs.List.{list_all};
ghost use Rattle.vital_sdf_lexemes.specs.Numbers as spec;

/// Whether each of the bytes is a digit.
fn all_digits(bytes: &[u8]) -> bool
    ensures { result ≡ list_all is_ascii_digit bytes.now }
{
    let mut rest = bytes;
    while let [first, after @ ..] = rest {
        if !first.is_ascii_digit() {
            return false;
        }
        rest = after;
    }
    true
}

/// Whether the bytes are digits, if any, and behind them either nothing, or a point and one digit or more.
fn ends_number(bytes: &[u8]) -> bool
    ensures { result ≡ spec.ends_number bytes.now }
{
    let mut rest = bytes;
    while let [first, after @ ..] = rest {
        if *first == b'.' {
            return !after.is_empty() && all_digits(after);
        }
        if !first.is_ascii_digit() {
            return false;
        }
        rest = after;
    }
    true
}

/// Whether a word has the form of a number.
pub fn is_number(word: &[u8]) -> bool
    ensures { result ≡ spec.is_number word.now }
{
    match word {
        [b'+' | b'-', unsigned @ ..] => !unsigned.is_empty() && ends_number(unsigned),
        _ => !word.is_empty() && ends_number(word),
    }
}
