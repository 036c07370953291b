//! Reading the values of delays and timing checks.

ghost use Rattle.std.specs.Prelude.{◌≡◌, Ok};
ghost use Rattle.vital_sdf.specs.Reads.{Reads};
ghost use Rattle.vital_sdf.specs.Values as spec;

use crate::cursor::Cursor;
use crate::entry::Triple;
use crate::read_error::ReadError;
use crate::readers::lists::{pushed, repeated};
use crate::sdf_fault::SdfFault;
use std::alloc::Global;
use vital_base::{List, Place};
use vital_sdf_lexemes::Kind;
use vital_sdf_words::femtoseconds;

const COLON: u16 = Kind::Colon as u16;

const NUMBER: u16 = Kind::Number as u16;

const RETAIN: u16 = Kind::Retain as u16;

/// A number, if one is written, in femtoseconds.
#[tactic(auto, unfolding(crate::specs::Values::optional_delay))]
fn optional_delay(cursor: &mut Cursor<'_>) -> Option<i64>
    ensures { spec.optional_delay cursor.old ≡ Ok (result, cursor.new) }
{
    if cursor.kind() != NUMBER {
        return None;
    }
    let power = cursor.power();
    let number = cursor.spelling();
    Some(femtoseconds(number, power))
}

/// A value for each corner.
#[tactic(auto, unfolding(crate::specs::Values::triple))]
fn triple(cursor: &mut Cursor<'_>) -> Triple
    ensures { spec.triple cursor.old ≡ Ok (result, cursor.new) }
{
    let first = optional_delay(cursor);
    if cursor.kind() != COLON {
        return Triple {
            min: first,
            typ: first,
            max: first,
        };
    }
    cursor.skip();
    let second = optional_delay(cursor);
    cursor.skip();
    let third = optional_delay(cursor);
    Triple {
        min: first,
        typ: second,
        max: third,
    }
}

/// Those that were found, and one more if it is no RETAIN.
#[tactic(auto, unfolding(crate::specs::Values::value))]
fn value(cursor: &mut Cursor<'_>, found: List<Triple>) -> Result<List<Triple>, ReadError>
    ensures { Reads (spec.value found cursor.old) result cursor.new }
{
    if cursor.kind() == RETAIN {
        cursor.enclosed();
        return Ok(found);
    }
    Ok(pushed(found, triple(cursor))?)
}

/// Values, each in parentheses.
pub(crate) fn values(alloc: Global, cursor: &mut Cursor<'_>) -> Result<List<Triple>, ReadError>
    ensures { Reads (spec.values cursor.old) result cursor.new }
{
    let none = List::new(Vec::new(alloc));
    repeated(cursor, none, |cursor, found| value(cursor, found))
}

/// The same for an entry whose keyword stands at the place, which has a value, and no more than twelve.
#[tactic(auto, unfolding(crate::specs::Values::delays))]
pub(crate) fn delays(
    alloc: Global,
    cursor: &mut Cursor<'_>,
    place: Place,
) -> Result<List<Triple>, ReadError>
    ensures { Reads (spec.delays place cursor.old) result cursor.new }
{
    let found = values(alloc, cursor)?;
    let count = found.as_slice().len();
    if 1 <= count && count <= 12 {
        Ok(found)
    } else {
        Err(ReadError::Fault(SdfFault::Values, place))
    }
}
