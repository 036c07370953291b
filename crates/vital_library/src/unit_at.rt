//! The units of files with their positions.

ghost use Rattle.std.specs.Prelude.{◌≡◌, ◌≤◌, ◌++◌, length, map, IfOk, OnOk};
ghost use Rattle.vital_library.specs.Limits.{IsLimited};
ghost use Rattle.vital_library.specs.Positions.{numbered, numbered_from, seen, units_in};
ghost use Rattle.vital_library.specs.Units.{units_of};

use crate::error::{LibraryError, MOST_UNITS};
use crate::position::Position;
use std::alloc::Global;
use vital_nodes::{HasPlace, Unit, Units};

/// A unit and where it stands.
#[derive(Clone, Copy)]
pub struct UnitAt<'a> {
    pub position: Position,
    pub unit: &'a Unit,
}

/// The units of files, unless there are too many.
pub fn units_at<'a>(alloc: Global, files: &'a [Units]) -> Result<Vec<UnitAt<'a>>, LibraryError>
    ensures units { IfOk result (λ units. map seen units.items ≡ numbered files.now) }
    ensures limit { IsLimited result (units_of files.now) }
{
    let mut units = Vec::new(alloc);
    for (number, file) in files.iter().enumerate() {
        put_units(&mut units, number, file.units.as_slice())?;
    }
    Ok(units)
}

/// Puts the units of one file at the end.
fn put_units<'a>(
    all: &mut Vec<UnitAt<'a>>,
    file: usize,
    units: &'a [Unit],
) -> Result<(), LibraryError>
    requires { length all.old.items ≤ 4096 }
    ensures units { OnOk result (map seen all.new.items ≡ map seen all.old.items ++ numbered_from file 0 units.now) }
    ensures limit { IsLimited result (units_in all.old.items ++ units.now) }
{
    for (number, unit) in units.iter().enumerate() {
        if all.len() == MOST_UNITS as usize {
            return Err(LibraryError::TooManyUnits {
                place: unit.place(),
            });
        }
        let position = Position {
            file,
            unit: number as u32,
        };
        all.push(UnitAt { position, unit })?;
    }
    Ok(())
}
