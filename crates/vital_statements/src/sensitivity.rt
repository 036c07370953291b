//! L1.7: sensitivity lists.

ghost use Rattle.std.specs.Prelude.{◌≡◌, ◌++◌, not, map, filter, IfOk, OnOk};
ghost use Rattle.vital_nodes.specs.Places.{place_of_name};
ghost use Rattle.vital_statements.specs.Clauses.{clause_7, is_input, places_7_in};

use crate::operand::{means_read_port, means_signal};
use crate::places::put_if;
use crate::statement::{as_process, statements_of};
use std::alloc::{AllocError, Global};
use vital_base::Place;
use vital_names::CellNames;
use vital_nodes::{Conc, HasPlace, Reference, all_concurrent, plain_identifier};

/// The places where L1.7 is broken: each process of an architecture without a sensitivity list, and each element of a list that is
/// no plain name of an internal signal or of an in or inout port.
pub fn clause_7(alloc: Global, names: &CellNames<'_>) -> Result<Vec<Place>, AllocError>
    ensures { IfOk result (λ places. places.items ≡ clause_7 names.now) }
{
    let concs = all_concurrent(alloc, statements_of(names))?;
    let mut places = Vec::new(alloc);
    for conc in &concs {
        put_places(&mut places, names, conc)?;
    }
    Ok(places)
}

/// Puts the places of a concurrent statement at the end.
fn put_places(places: &mut Vec<Place>, names: &CellNames<'_>, conc: &Conc) -> Result<(), AllocError>
    ensures { OnOk result (places.new.items ≡ places.old.items ++ places_7_in names.now conc.now) }
{
    match as_process(conc) {
        Some(process) => {
            let names_read = process.sensitivity.as_slice();
            put_if(places, names_read.is_empty(), conc.place())?;
            put_elements(places, names, names_read)
        }
        None => Ok(()),
    }
}

/// Puts the places of the wrong elements of a list at the end.
fn put_elements(
    places: &mut Vec<Place>,
    names: &CellNames<'_>,
    elements: &[Reference],
) -> Result<(), AllocError>
    ensures { OnOk result (places.new.items ≡ places.old.items ++ map place_of_name (filter (λ r. not (is_input names.now r)) elements.now)) }
{
    for element in elements {
        put_if(places, !is_input(names, element), element.place())?;
    }
    Ok(())
}

/// Whether a name is the plain name of an internal signal or of an in or inout port.
fn is_input(names: &CellNames<'_>, name: &Reference) -> bool
    ensures { result ≡ is_input names.now name.now }
{
    match plain_identifier(name) {
        Some(identifier) => {
            means_signal(names, None, identifier) || means_read_port(names, None, identifier)
        }
        None => false,
    }
}
