//! Reading lists, whose each further item is behind a step.

ghost use Rattle.std.specs.Prelude.{◌≡◌, ℕ, ◌++◌, ◌∷◌, [], List, IfOk};
ghost use Rattle.vital_shapes.specs.Reading as spec;
ghost use Rattle.vital_shapes.specs.Reading.{Reader};
ghost use Rattle.vital_vhdl.specs.Reads.{AddsBy, Reads, ReadsAlways, ReadsBy};

use crate::cursor::Cursor;
use crate::shape_error::ShapeError;
use sqlite_items::Items;
use std::alloc::{AllocError, Global};
use vital_base::List;

/// Those that were found, and what each further step adds.
#[tactic(auto, using(crate::proofs::Turns::runs_out), unfolding(vital_shapes::specs::Reading::left))]
pub(crate) fn fold<T: Drop, F: Fn(&mut Cursor<'_>, List<T>, u16) -> Result<List<T>, ShapeError>>(
    cursor: &mut Cursor<'_>,
    mut found: List<T>,
    add: F,
) -> Result<List<T>, ShapeError>
    requires { F.IsAlwaysCallable add }
    ensures { (item : ℕ → Reader (List T)) → AddsBy item (F.post add) → Reads (spec.more_lists item found cursor.old) result cursor.new }
{
    for _turn in 0..cursor.left() {
        let alternative = cursor.choice();
        if alternative == 0 {
            return Ok(found);
        }
        found = add(cursor, found, alternative)?;
    }
    Ok(found)
}

/// The list with one more item at its end.
pub(crate) fn pushed<T: Drop>(found: List<T>, item: T) -> Result<List<T>, AllocError>
    ensures { IfOk result (λ all. all ≡ found ++ item ∷ []) }
{
    let mut items = found.into_vec();
    items.push(item)?;
    Ok(List::new(items))
}

/// The list of two items.
pub(crate) fn two<T: Drop>(alloc: Global, first: T, second: T) -> Result<List<T>, AllocError>
    ensures { IfOk result (λ all. all ≡ first ∷ second ∷ []) }
{
    let mut items = Vec::new(alloc);
    items.push(first)?;
    items.push(second)?;
    Ok(List::new(items))
}

/// A list as the items of a node.
pub(crate) fn items_of<T>(found: List<T>) -> Items<T>
    ensures { result ≡ found }
{
    Items::from_vec(found.into_vec())
}

/// Those that were found, and the one that each further step begins.
pub(crate) fn more<T: Drop, F: Fn(&mut Cursor<'_>, u16) -> Result<T, ShapeError>>(
    cursor: &mut Cursor<'_>,
    found: List<T>,
    item: F,
) -> Result<List<T>, ShapeError>
    requires { F.IsAlwaysCallable item }
    ensures { (reader : ℕ → Reader T) → ReadsBy reader (F.post item) → Reads (spec.more reader found cursor.old) result cursor.new }
{
    fold(cursor, found, |cursor, found, alternative| {
        let item = item(cursor, alternative)?;
        Ok(pushed(found, item)?)
    })
}

/// The one that each step begins.
pub(crate) fn many<T: Drop, F: Fn(&mut Cursor<'_>, u16) -> Result<T, ShapeError>>(
    alloc: Global,
    cursor: &mut Cursor<'_>,
    item: F,
) -> Result<Items<T>, ShapeError>
    requires { F.IsAlwaysCallable item }
    ensures { (reader : ℕ → Reader T) → ReadsBy reader (F.post item) → Reads (spec.many reader cursor.old) result cursor.new }
{
    let found = more(cursor, List::new(Vec::new(alloc)), item)?;
    Ok(items_of(found))
}

/// One, and each further one behind a token that parts them.
pub(crate) fn separated<T: Drop, F: Fn(&mut Cursor<'_>) -> Result<T, ShapeError>>(
    alloc: Global,
    cursor: &mut Cursor<'_>,
    item: F,
) -> Result<List<T>, ShapeError>
    requires { F.IsAlwaysCallable item }
    ensures { (reader : Reader T) → ReadsAlways reader (F.post item) → Reads (spec.separated reader cursor.old) result cursor.new }
{
    let first = item(cursor)?;
    let found = pushed(List::new(Vec::new(alloc)), first)?;
    more(cursor, found, |cursor, _| {
        cursor.skip();
        item(cursor)
    })
}
