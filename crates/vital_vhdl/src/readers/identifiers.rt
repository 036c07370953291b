//! Reading lists of identifiers, and what stands at the end of a construct.

ghost use Rattle.std.specs.Prelude.{◌≡◌, Some};
ghost use Rattle.vital_shapes.specs.Reading as spec;
ghost use Rattle.vital_vhdl.specs.Reads.{Reads};

use crate::cursor::Cursor;
use crate::readers::lists::separated;
use crate::shape_error::ShapeError;
use std::alloc::Global;
use vital_base::List;
use vital_nodes::Identifier;

/// One identifier or more, parted by commas.
#[tactic(auto, unfolding(vital_shapes::specs::Reading::identifiers))]
pub(crate) fn identifiers(
    alloc: Global,
    cursor: &mut Cursor<'_>,
) -> Result<List<Identifier>, ShapeError>
    ensures { Reads (spec.identifiers cursor.old) result cursor.new }
{
    separated(alloc, cursor, |cursor| cursor.identifier(alloc))
}

/// Whether an optional word is written.
#[tactic(auto, unfolding(vital_shapes::specs::Reading::is_written))]
pub(crate) fn is_written(cursor: &mut Cursor<'_>) -> bool
    ensures { spec.is_written cursor.old ≡ Some (result, cursor.new) }
{
    if cursor.choice() == 0 {
        return false;
    }
    cursor.skip();
    true
}

/// Passes over the identifier at the end of a construct, if it is written.
#[tactic(auto, unfolding(vital_shapes::specs::Reading::closing))]
pub(crate) fn closing(cursor: &mut Cursor<'_>)
    ensures { spec.closing cursor.old ≡ Some (tt, cursor.new) }
{
    if cursor.choice() != 0 {
        cursor.choice();
        cursor.skip();
    }
}
