//! Reading names, expressions and items that stand in no parentheses.

ghost use Rattle.std.specs.Prelude.{◌≡◌};
ghost use Rattle.vital_shapes.specs.Expressions as spec;
ghost use Rattle.vital_vhdl.specs.Reads.{Reads};

use crate::cursor::Cursor;
use crate::readers::expressions::Nested;
use crate::readers::items::items_within;
use crate::readers::lists::{items_of, separated};
use crate::shape_error::ShapeError;
use sqlite_items::Items;
use std::alloc::Global;
use vital_nodes::{Expr, Item, Reference, Suffix};

/// Items that stand in no parentheses but those around them.
pub(crate) fn items(alloc: Global, cursor: &mut Cursor<'_>) -> Result<Items<Item>, ShapeError>
    ensures { Reads (spec.items cursor.old) result cursor.new }
{
    let levels = cursor.left();
    items_within(alloc, cursor, levels)
}

/// An expression that stands in no parentheses.
pub(crate) fn expression(alloc: Global, cursor: &mut Cursor<'_>) -> Result<Expr, ShapeError>
    ensures { Reads (spec.expression cursor.old) result cursor.new }
{
    let levels = cursor.left();
    Nested {
        alloc,
        levels,
        items: items_within,
    }
    .expr(cursor)
}

/// A name that stands in no parentheses.
pub(crate) fn name(alloc: Global, cursor: &mut Cursor<'_>) -> Result<Reference, ShapeError>
    ensures { Reads (spec.name cursor.old) result cursor.new }
{
    let levels = cursor.left();
    Nested {
        alloc,
        levels,
        items: items_within,
    }
    .reference(cursor)
}

/// What follows the identifier of a name that stands in no parentheses.
pub(crate) fn suffix_list(
    alloc: Global,
    cursor: &mut Cursor<'_>,
) -> Result<Items<Suffix>, ShapeError>
    ensures { Reads (spec.suffix_list cursor.old) result cursor.new }
{
    let levels = cursor.left();
    Nested {
        alloc,
        levels,
        items: items_within,
    }
    .suffixes(cursor)
}

/// One name or more, parted by commas.
#[tactic(auto, unfolding(vital_shapes::specs::Expressions::names))]
pub(crate) fn names(alloc: Global, cursor: &mut Cursor<'_>) -> Result<Items<Reference>, ShapeError>
    ensures { Reads (spec.names cursor.old) result cursor.new }
{
    let found = separated(alloc, cursor, |cursor| name(alloc, cursor))?;
    Ok(items_of(found))
}

/// A default or a delay behind its word, if it is written.
#[tactic(auto, unfolding(vital_shapes::specs::Expressions::optional_value))]
pub(crate) fn optional_value(
    alloc: Global,
    cursor: &mut Cursor<'_>,
) -> Result<Option<Expr>, ShapeError>
    ensures { Reads (spec.optional_value cursor.old) result cursor.new }
{
    if cursor.choice() == 0 {
        return Ok(None);
    }
    cursor.skip();
    Ok(Some(expression(alloc, cursor)?))
}
