//! Lists of places that grow at their end.

ghost use Rattle.std.specs.Prelude.{◌≡◌, ◌++◌, OnOk};
ghost use Rattle.vital_statements.specs.Lists.{place_if};

use std::alloc::AllocError;
use vital_base::Place;

/// Puts a place at the end if a clause is broken there.
pub fn put_if(places: &mut Vec<Place>, is_broken: bool, place: Place) -> Result<(), AllocError>
    ensures { OnOk result (places.new.items ≡ places.old.items ++ place_if is_broken place) }
{
    if is_broken {
        places.push(place)?;
    }
    Ok(())
}
