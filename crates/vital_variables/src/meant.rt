//! What identifiers in processes mean.

ghost use Rattle.std.specs.Prelude.{◌≡◌};
ghost use Rattle.std.specs.Option.{option_map};
ghost use Rattle.vital_names.specs.Meanings.{lent};
ghost use Rattle.vital_variables.specs.Meant as spec;

use vital_base::Place;
use vital_names::{CellNames, Meaning, ProcessNames};
use vital_nodes::Identifier;
use vital_uses::own_site;

/// What an identifier in a process means, seen from a viewpoint.
pub fn meant_from<'a>(
    names: &CellNames<'a>,
    process: &'a ProcessNames<'a>,
    viewpoint: Place,
    identifier: &Identifier,
) -> Option<Meaning<'a>>
    ensures { option_map lent result ≡ spec.meant_from names.now process.now viewpoint identifier.now }
{
    let site = own_site(Some(process), viewpoint);
    names.meaning(identifier.name.as_slice(), &site)
}

/// What an identifier in a process means where it stands.
pub fn meant<'a>(
    names: &CellNames<'a>,
    process: &'a ProcessNames<'a>,
    identifier: &Identifier,
) -> Option<Meaning<'a>>
    ensures { option_map lent result ≡ spec.meant names.now process.now identifier.now }
{
    meant_from(names, process, identifier.place, identifier)
}
