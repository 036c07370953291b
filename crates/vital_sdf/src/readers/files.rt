//! Reading a whole file.

ghost use Rattle.std.specs.Prelude.{◌≡◌};
ghost use Rattle.vital_sdf.specs.Files as spec;
ghost use Rattle.vital_sdf.specs.Reads.{Reads};

use crate::cursor::Cursor;
use crate::group::Group;
use crate::read_error::ReadError;
use crate::readers::cells::cell;
use crate::readers::headers::{divider, timescale};
use crate::readers::lists::repeated;
use std::alloc::Global;
use vital_base::List;
use vital_sdf_lexemes::Kind;

const DIVIDER: u16 = Kind::Divider as u16;

const TIMESCALE: u16 = Kind::TimeScale as u16;

const CELL: u16 = Kind::Cell as u16;

/// The groups of the file, with those of a cell; or what a header says.
#[tactic(auto, unfolding(crate::specs::Files::block))]
fn block(
    alloc: Global,
    cursor: &mut Cursor<'_>,
    groups: List<Group>,
) -> Result<List<Group>, ReadError>
    ensures { Reads (spec.block groups cursor.old) result cursor.new }
{
    let place = cursor.place();
    match cursor.take() {
        DIVIDER => divider(cursor, place)?,
        TIMESCALE => timescale(cursor, place)?,
        CELL => return cell(alloc, cursor, groups),
        _ => {
            cursor.enclosed();
        }
    }
    Ok(groups)
}

/// The groups of a file.
#[tactic(auto, unfolding(crate::specs::Files::sdf))]
pub(crate) fn groups(alloc: Global, cursor: &mut Cursor<'_>) -> Result<List<Group>, ReadError>
    ensures { Reads (spec.sdf cursor.old) result cursor.new }
{
    cursor.skip();
    cursor.skip();
    let none = List::new(Vec::new(alloc));
    repeated(cursor, none, |cursor, groups| block(alloc, cursor, groups))
}
