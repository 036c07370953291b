//! Where names stand first in lists, found by the names.

ghost use Rattle.std.specs.Prelude.{◌≡◌, ℕ, List, map, IfOk};
ghost use Rattle.vital_names.specs.FirstNames.{first_in};
ghost use Rattle.vital_uses.specs.NamesAt.{at, first_place, lent_name};

use std::alloc::{AllocError, Global};
use std::collections::HashMap;
use vital_base::Place;
use vital_names::put_first;
use vital_nodes::Identifier;

/// A name, borrowed from an identifier, and where it stands.
#[derive(Clone, Copy)]
pub struct NameAt<'a> {
    pub name: &'a [u8],
    pub place: Place,
}

impl<'a> NameAt<'a> {
    /// An identifier as such.
    pub fn of(identifier: &'a Identifier) -> NameAt<'a>
        ensures { lent_name result ≡ at identifier.now }
    {
        NameAt {
            name: identifier.name.as_slice(),
            place: identifier.place,
        }
    }
}

/// The place where each name stands first.
pub type FirstPlaces<'a> = HashMap<&'a [u8], Place>;

/// Where each name stands first in a list.
pub fn first_places<'a>(alloc: Global, names: &[NameAt<'a>]) -> Result<FirstPlaces<'a>, AllocError>
    ensures { IfOk result (λ places. (name : List ℕ) → first_in places name ≡ first_place (map lent_name names.now) name) }
{
    let mut places: FirstPlaces<'a> = HashMap::new(alloc);
    for one in names {
        put_first(&mut places, one.name, one.place)?;
    }
    Ok(places)
}
