//! Reading what stands any number of times in parentheses.

ghost use Rattle.std.specs.Prelude.{◌≡◌, ◌++◌, ◌∷◌, [], List, IfOk};
ghost use Rattle.vital_sdf.specs.Entries as entries;
ghost use Rattle.vital_sdf.specs.Reading as spec;
ghost use Rattle.vital_sdf.specs.Reading.{Reader};
ghost use Rattle.vital_sdf.specs.Reads.{MakesBy, Reads, ReadsAlways};

use crate::cursor::Cursor;
use crate::read_error::ReadError;
use std::alloc::AllocError;
use vital_base::List;
use vital_sdf_lexemes::Kind;

const LEFT_PARENTHESIS: u16 = Kind::LeftParenthesis as u16;

/// What each item in parentheses makes in turn of what was there.
pub(crate) fn repeated<T: Drop, F: Fn(&mut Cursor<'_>, T) -> Result<T, ReadError>>(
    cursor: &mut Cursor<'_>,
    mut made: T,
    item: F,
) -> Result<T, ReadError>
    requires { F.IsAlwaysCallable item }
    ensures { (reader : T → Reader T) → MakesBy reader (F.post item) → Reads (spec.repeated reader made cursor.old) result cursor.new }
{
    for _turn in 0..cursor.left() {
        if cursor.kind() != LEFT_PARENTHESIS {
            return Ok(made);
        }
        cursor.skip();
        made = item(cursor, made)?;
        cursor.skip();
    }
    Ok(made)
}

/// The list with one more item at its end.
pub(crate) fn pushed<T: Drop>(found: List<T>, item: T) -> Result<List<T>, AllocError>
    ensures { IfOk result (λ all. all ≡ found ++ item ∷ []) }
{
    let mut items = found.into_vec();
    items.push(item)?;
    Ok(List::new(items))
}

/// Those that were found, and each further one in parentheses.
pub(crate) fn more<T: Drop, F: Fn(&mut Cursor<'_>) -> Result<T, ReadError>>(
    cursor: &mut Cursor<'_>,
    found: List<T>,
    item: F,
) -> Result<List<T>, ReadError>
    requires { F.IsAlwaysCallable item }
    ensures { (reader : Reader T) → ReadsAlways reader (F.post item) → Reads (spec.repeated (entries.one_more reader) found cursor.old) result cursor.new }
{
    repeated(cursor, found, |cursor, found| {
        let item = item(cursor)?;
        Ok(pushed(found, item)?)
    })
}
