//! Numbers that fit a machine word.

ghost use Rattle.std.specs.Prelude.{◌≡◌, ◌+◌, ◌*◌, ◌^◌, ◌<◌, ◌≤◌, IfOk, MatchOption};
ghost use Rattle.vital_naturals.specs.Digits as spec;
ghost use Rattle.vital_naturals.specs.Numerals.{number, numeral};

use itoa::Buffer;
use std::alloc::{AllocError, Global};

/// The decimal digits of a word, that of the ones first, and zeros behind them.
pub fn digits_of_word(word: u64) -> [u8; 20]
    ensures digits { spec.AreDigits result }
    ensures value { spec.value result ≡ word }
{
    let mut digits = [0; 20];
    let mut rest = word;
    for place in 0..20 {
        digits[place] = (rest % 10) as u8;
        rest /= 10;
    }
    digits
}

/// The number that the digits of a word and one more write, if it fits a word.
fn with_digit(word: u64, digit: u8) -> Option<u64>
    ensures { MatchOption result (2 ^ 64 ≤ word * 10 + digit) (λ more. more ≡ word * 10 + digit) }
{
    word.checked_mul(10)?.checked_add(u64::from(digit))
}

/// The number that a literal writes, if it fits a word. Underscores count for nothing.
pub fn word_of_literal(literal: &[u8]) -> Option<u64>
    ensures { MatchOption result (2 ^ 64 ≤ number literal.now) (λ word. word ≡ number literal.now) }
{
    let mut word = 0;
    for byte in literal {
        if byte.is_ascii_digit() {
            word = with_digit(word, *byte - b'0')?;
        }
    }
    Some(word)
}

/// The number that digits write, that of the ones first, if it fits a word.
#[tactic(auto, using(crate::proofs::DigitLemmas::drop_least))]
pub fn word_of_digits(digits: &[u8]) -> Option<u64>
    ensures { MatchOption result (2 ^ 64 ≤ spec.value digits.now) (λ word. word ≡ spec.value digits.now) }
{
    let mut word = 0;
    let mut place = digits.len();
    while place > 0 {
        place -= 1;
        word = with_digit(word, digits[place])?;
    }
    Some(word)
}

/// The numeral of a word, as bytes of ASCII, without zeros before it.
pub fn numeral_of_word(alloc: Global, word: u64) -> Result<Vec<u8>, AllocError>
    ensures { IfOk result (λ bytes. bytes.items ≡ numeral word) }
{
    let mut buffer = Buffer::new();
    Vec::from_slice(alloc, buffer.format(word).as_bytes())
}
