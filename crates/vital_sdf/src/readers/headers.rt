//! Reading what a header says of the words and values behind it.

ghost use Rattle.std.specs.Prelude.{◌≡◌, ◌<◌, ◌≤◌, IfSome, length};
ghost use Rattle.vital_sdf.specs.Headers as spec;
ghost use Rattle.vital_sdf.specs.Reads.{Reads};

use crate::cursor::Cursor;
use crate::read_error::ReadError;
use crate::sdf_fault::SdfFault;
use vital_base::Place;
use vital_sdf_lexemes::Kind;

const WORD: u16 = Kind::Word as u16;

/// The divider that a word is.
fn divider_of(word: &[u8]) -> Option<u8>
    ensures { result ≡ spec.divider_of word.now }
{
    match word {
        b"." => Some(b'.'),
        b"/" => Some(b'/'),
        _ => None,
    }
}

/// A word from which on it is the divider, behind the keyword at the place.
#[tactic(auto, unfolding(crate::specs::Headers::divider))]
pub(crate) fn divider(cursor: &mut Cursor<'_>, place: Place) -> Result<(), ReadError>
    ensures { Reads (spec.divider place cursor.old) result cursor.new }
{
    match divider_of(cursor.spelling()) {
        Some(divider) => {
            cursor.set_divider(divider);
            Ok(())
        }
        None => Err(ReadError::Fault(SdfFault::Divider, place)),
    }
}

/// The power of ten that a number is.
fn power_of_number(bytes: &[u8]) -> Option<u32>
    ensures power { result ≡ spec.power_of_number bytes.now }
    ensures bound { IfSome result (λ power. power ≤ 2) }
{
    match bytes {
        b"1" => Some(0),
        b"10" => Some(1),
        b"100" => Some(2),
        b"1.0" => Some(0),
        b"10.0" => Some(1),
        b"100.0" => Some(2),
        _ => None,
    }
}

/// The power of ten femtoseconds that a unit is.
fn power_of_unit(bytes: &[u8]) -> Option<u32>
    ensures power { result ≡ spec.power_of_unit bytes.now }
    ensures bound { IfSome result (λ power. power ≤ 15) }
{
    match bytes {
        b"s" => Some(15),
        b"ms" => Some(12),
        b"us" => Some(9),
        b"ns" => Some(6),
        b"ps" => Some(3),
        b"fs" => Some(0),
        _ => None,
    }
}

/// The power of ten femtoseconds that a number and a unit are.
#[tactic(auto, unfolding(crate::specs::Headers::power_of))]
fn power_of(digits: &[u8], letters: &[u8]) -> Option<u32>
    ensures power { result ≡ spec.power_of digits.now letters.now }
    ensures bound { IfSome result (λ power. power ≤ 17) }
{
    match (power_of_number(digits), power_of_unit(letters)) {
        (Some(number), Some(unit)) => Some(number + unit),
        _ => None,
    }
}

/// Where the first byte of a word stands that is no digit and no point.
fn first_letter(word: &[u8]) -> Option<usize>
    ensures at { result ≡ spec.first_letter word.now }
    ensures within { IfSome result (λ at. at < length word.now) }
{
    word.iter()
        .position(|byte| !byte.is_ascii_digit() && *byte != b'.')
}

/// The same of a word that is a number and a unit.
#[tactic(auto, unfolding(crate::specs::Headers::power_of_word))]
fn power_of_word(word: &[u8]) -> Option<u32>
    ensures power { result ≡ spec.power_of_word word.now }
    ensures bound { IfSome result (λ power. power ≤ 17) }
{
    let at = first_letter(word)?;
    power_of(&word[..at], &word[at..])
}

/// From here on the unit is this one.
fn set_power(cursor: &mut Cursor<'_>, place: Place, power: Option<u32>) -> Result<(), ReadError>
    requires { IfSome power (λ power. power ≤ 17) }
    ensures { Reads (spec.set_power place power cursor.old) result cursor.new }
{
    match power {
        Some(power) => {
            cursor.set_power(power);
            Ok(())
        }
        None => Err(ReadError::Fault(SdfFault::Timescale, place)),
    }
}

/// A unit of values from which on it counts, behind the keyword at the place.
#[tactic(auto, unfolding(crate::specs::Headers::timescale))]
pub(crate) fn timescale(cursor: &mut Cursor<'_>, place: Place) -> Result<(), ReadError>
    ensures { Reads (spec.timescale place cursor.old) result cursor.new }
{
    if cursor.kind() == WORD {
        let word = cursor.spelling();
        return set_power(cursor, place, power_of_word(word));
    }
    let first = cursor.spelling();
    if cursor.kind() != WORD {
        return Err(ReadError::Fault(SdfFault::Timescale, place));
    }
    let second = cursor.spelling();
    set_power(cursor, place, power_of(first, second))
}
