//! Where L1.14 is broken.

ghost use Rattle.std.specs.Prelude.{◌≡◌, ◌++◌, map, IfOk, OnOk};
ghost use Rattle.std.specs.List.{flat_map};
ghost use Rattle.std.specs.Option.{option_map};
ghost use Rattle.vital_call_clauses.specs.Clauses as spec;
ghost use Rattle.vital_calls.specs.Calls as calls;
ghost use Rattle.vital_names.specs.Sites as sites;
ghost use Rattle.vital_uses.specs.Sited.{lent_node};

use crate::wrong_call::{is_wrong_function, is_wrong_procedure};
use std::alloc::{AllocError, Global};
use vital_base::Place;
use vital_calls::Call;
use vital_names::{CellNames, Site};
use vital_nodes::{Conc, HasPlace, Node, Reference};
use vital_statements::{call_of_conc, call_of_stmt};
use vital_uses::{CellStatements, CellUses, ProcessUses, SitedNode, own_site};

/// The places where L1.14 is broken in a cell, of which these are the uses and the statements: each call whose items are for no
/// formal, for one twice, too few, or by position where names are asked. It takes time in proportion to the nodes of the cell.
pub fn clause_14<'a>(
    alloc: Global,
    uses: &CellUses<'a>,
    statements: &CellStatements<'a>,
) -> Result<Vec<Place>, AllocError>
    requires { statements.now ≡ uses.now.arch }
    ensures { IfOk result (λ places. places.items ≡ spec.clause_14 uses.now) }
{
    let names = uses.names();
    let mut places = Vec::new(alloc);
    put_wrong_nodes(&mut places, names, uses.nodes_outside())?;
    put_wrong_concurrent(&mut places, names, statements.statements())?;
    put_wrong_in_processes(&mut places, uses.processes())?;
    Ok(places)
}

/// Puts a place at the end if it is broken there.
fn put_if(places: &mut Vec<Place>, is_broken: bool, place: Place) -> Result<(), AllocError>
    ensures { OnOk result (places.new.items ≡ places.old.items ++ spec.place_if is_broken place) }
{
    if is_broken {
        places.push(place)?;
    }
    Ok(())
}

/// Puts the place of a statement at the end if it is a call with wrong items.
fn put_wrong_call<'a>(
    places: &mut Vec<Place>,
    names: &CellNames<'a>,
    site: &Site<'a>,
    place: Place,
    call: Option<Call<'_>>,
) -> Result<(), AllocError>
    ensures { OnOk result (places.new.items ≡ places.old.items ++ spec.wrong_call names.now (sites.lent site.now) place (option_map calls.lent call.entry)) }
{
    let is_wrong = match call {
        Some(call) => is_wrong_procedure(names, site, call),
        None => false,
    };
    put_if(places, is_wrong, place)
}

/// Puts the place of a node at the end if it is a call with wrong items.
fn put_wrong_node<'a>(
    places: &mut Vec<Place>,
    names: &CellNames<'a>,
    node: &SitedNode<'a>,
) -> Result<(), AllocError>
    ensures { OnOk result (places.new.items ≡ places.old.items ++ spec.wrong_node names.now (lent_node node.now)) }
{
    match node.node {
        Node::Sequential(stmt) => {
            put_wrong_call(places, names, &node.site, stmt.place(), call_of_stmt(stmt))
        }
        Node::Name(name) => {
            put_if(
                places,
                is_wrong_function(names, &node.site, name),
                name.place(),
            )
        }
        _ => Ok(()),
    }
}

/// Puts the places of nodes that are calls with wrong items at the end.
fn put_wrong_nodes<'a>(
    places: &mut Vec<Place>,
    names: &CellNames<'a>,
    nodes: &[SitedNode<'a>],
) -> Result<(), AllocError>
    ensures { OnOk result (places.new.items ≡ places.old.items ++ flat_map (spec.wrong_node names.now) (map lent_node nodes.now)) }
{
    for node in nodes {
        put_wrong_node(places, names, node)?;
    }
    Ok(())
}

/// Puts the places of concurrent statements that are calls with wrong items at the end.
fn put_wrong_concurrent(
    places: &mut Vec<Place>,
    names: &CellNames<'_>,
    statements: &[&Conc],
) -> Result<(), AllocError>
    ensures { OnOk result (places.new.items ≡ places.old.items ++ flat_map (spec.wrong_concurrent names.now) (map (λ c. c.now) statements.now)) }
{
    for conc in statements {
        put_wrong_conc(places, names, conc)?;
    }
    Ok(())
}

/// Puts the place of a concurrent statement at the end if it is a call with wrong items.
fn put_wrong_conc(
    places: &mut Vec<Place>,
    names: &CellNames<'_>,
    conc: &Conc,
) -> Result<(), AllocError>
    ensures { OnOk result (places.new.items ≡ places.old.items ++ spec.wrong_concurrent names.now conc.now) }
{
    let place = conc.place();
    put_wrong_call(
        places,
        names,
        &own_site(None, place),
        place,
        call_of_conc(conc),
    )
}

/// Puts the places of calls with wrong items in processes at the end.
fn put_wrong_in_processes(
    places: &mut Vec<Place>,
    processes: &[ProcessUses<'_>],
) -> Result<(), AllocError>
    ensures { OnOk result (places.new.items ≡ places.old.items ++ flat_map (λ u. spec.wrong_in_process u.0 u.1) processes.now) }
{
    for process in processes {
        put_wrong_in_process(places, process)?;
    }
    Ok(())
}

/// Puts the places of calls with wrong items in a process at the end.
fn put_wrong_in_process(
    places: &mut Vec<Place>,
    process: &ProcessUses<'_>,
) -> Result<(), AllocError>
    ensures { OnOk result (places.new.items ≡ places.old.items ++ spec.wrong_in_process process.now.0 process.now.1) }
{
    let names = process.names();
    put_wrong_nodes(places, names, process.nodes_before_statements())?;
    put_wrong_nodes(places, names, process.nodes_of_statements())
}
