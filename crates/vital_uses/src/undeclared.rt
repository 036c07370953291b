//! Names that are neither declared nor predeclared.

ghost use Rattle.std.specs.Prelude.{◌≡◌, [], ◌∷◌, ◌++◌, filter, map, OnOk};
ghost use Rattle.vital_nodes.specs.Places.{place_of_name};
ghost use Rattle.vital_uses.specs.Asked.{lent_asked};
ghost use Rattle.vital_uses.specs.Undeclared as spec;

use crate::asked::Asked;
use std::alloc::AllocError;
use vital_base::Place;
use vital_names::CellNames;
use vital_nodes::{HasPlace, Reference};

/// Puts the places of those identifiers at the end that mean nothing where they stand.
pub fn put_undeclared<'a>(places: &mut Vec<Place>, asked: &[Asked<'a>]) -> Result<(), AllocError>
    ensures { OnOk result (places.new.items ≡ places.old.items ++ spec.undeclared (map lent_asked asked.now)) }
{
    for one in asked {
        put_if_undeclared(places, *one)?;
    }
    Ok(())
}

/// Puts the place of an identifier at the end if it means nothing where it stands.
fn put_if_undeclared<'a>(places: &mut Vec<Place>, asked: Asked<'a>) -> Result<(), AllocError>
    ensures { OnOk result (places.new.items ≡ places.old.items ++ spec.undeclared (lent_asked asked.entry ∷ [])) }
{
    if asked.meaning.is_none() {
        places.push(asked.identifier.place)?;
    }
    Ok(())
}

/// Puts the places of those names of types at the end that are none of the predeclared types.
pub fn put_unknown_types<'a>(
    places: &mut Vec<Place>,
    names: &CellNames<'a>,
    types: &[&'a Reference],
) -> Result<(), AllocError>
    ensures { OnOk result (places.new.items ≡ places.old.items ++ spec.unknown_types (map (λ r. r.now) types.now)) }
{
    for name in types {
        put_if_unknown(places, names, name)?;
    }
    Ok(())
}

/// Puts the place of a name at the end if it is of none of the predeclared types.
fn put_if_unknown<'a>(
    places: &mut Vec<Place>,
    names: &CellNames<'a>,
    name: &'a Reference,
) -> Result<(), AllocError>
    ensures { OnOk result (places.new.items ≡ places.old.items ++ spec.unknown_types (name.now ∷ [])) }
{
    if names.library().type_named(name).is_none() {
        places.push(name.place())?;
    }
    Ok(())
}
