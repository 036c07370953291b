//! Reading literals.

ghost use Rattle.std.specs.Prelude.{◌≡◌, slice_index};
ghost use Rattle.vital_shapes.specs.Expressions as spec;
ghost use Rattle.vital_vhdl.specs.Reads.{Reads};

use crate::cursor::Cursor;
use crate::shape_error::ShapeError;
use sqlite_items::Boxed;
use std::alloc::Global;
use vital_base::Name;
use vital_nodes::{Expr, Physical};

/// A number, and its unit if it has one.
#[tactic(auto, unfolding(vital_shapes::specs::Expressions::number))]
pub(crate) fn number(alloc: Global, cursor: &mut Cursor<'_>) -> Result<Expr, ShapeError>
    ensures { Reads (spec.number cursor.old) result cursor.new }
{
    let place = cursor.place();
    let number = Name::new(Vec::from_slice(alloc, cursor.spelling())?);
    if cursor.choice() == 0 {
        return Ok(Expr::Number(place, number));
    }
    let unit = cursor.identifier(alloc)?;
    let physical = Physical {
        place,
        number,
        unit,
    };
    Ok(Expr::Physical(Boxed::new(alloc, physical)?))
}

/// The byte between the apostrophes of a character literal.
pub(crate) fn second_byte(bytes: &[u8]) -> u8
    ensures { result ≡ slice_index bytes.now 1 }
{
    match bytes {
        [_, byte, ..] => *byte,
        _ => 0,
    }
}
