//! L1.6: the block of wire delays.

ghost use Rattle.std.specs.Prelude.{◌≡◌, ◌||◌, ◌++◌, true, false, not, map, IfOk, OnOk};
ghost use Rattle.std.specs.List.{list_any};
ghost use Rattle.std.specs.Option.{option_map_or, option_to_list};
ghost use Rattle.vital_nodes.specs.Places.{identifier_of_decl};
ghost use Rattle.vital_drivers.specs.Clauses.{clause_6, places_6, places_6_at, places_6_in};
ghost use Rattle.vital_drivers.specs.Kept.{shares_any};
ghost use Rattle.vital_statements.specs.Lists.{each};
ghost use Rattle.vital_drivers.specs.Wires.{Wire as Wire', lent, shares, wire_of};

use crate::used_names::{UsedNames, put_name};
use crate::wire::{Wire, wire_of};
use std::alloc::{AllocError, Global};
use std::collections::HashSet;
use vital_base::Place;
use vital_names::CellNames;
use vital_nodes::{Block, Conc, Decl, HasPlace};
use vital_statements::{as_block, put_if, statements_of};

/// The places where L1.6 is broken: each declaration in a block of the architecture, each statement in it that is no call of
/// VitalWireDelay of an internal signal, an in or inout port and that port's tipd generic, and each such call whose signal or
/// port an earlier one of the block has.
pub fn clause_6(alloc: Global, names: &CellNames<'_>) -> Result<Vec<Place>, AllocError>
    ensures { IfOk result (λ places. places.items ≡ clause_6 names.now) }
{
    let mut places = Vec::new(alloc);
    for conc in statements_of(names) {
        put_places(alloc, &mut places, names, conc)?;
    }
    Ok(places)
}

/// Puts the places in a concurrent statement at the end.
fn put_places(
    alloc: Global,
    places: &mut Vec<Place>,
    names: &CellNames<'_>,
    conc: &Conc,
) -> Result<(), AllocError>
    ensures { OnOk result (places.new.items ≡ places.old.items ++ places_6_in names.now conc.now) }
{
    match as_block(conc) {
        Some(block) => put_block(alloc, places, names, block.block),
        None => Ok(()),
    }
}

/// Puts the places in a block at the end.
fn put_block(
    alloc: Global,
    places: &mut Vec<Place>,
    names: &CellNames<'_>,
    block: &Block,
) -> Result<(), AllocError>
    ensures { OnOk result (places.new.items ≡ places.old.items ++ places_6 names.now block.now) }
{
    put_declarations(places, block.declarations.as_slice())?;
    put_statements(alloc, places, names, block.statements.as_slice())
}

/// Puts the places of declarations at the end.
fn put_declarations(places: &mut Vec<Place>, declarations: &[Decl]) -> Result<(), AllocError>
    ensures { OnOk result (places.new.items ≡ places.old.items ++ map (λ d. (identifier_of_decl d).place) declarations.now) }
{
    for declaration in declarations {
        places.push(declaration.place())?;
    }
    Ok(())
}

/// The names of signals and of ports that are joined.
#[derive(Drop)]
pub struct Joined<'a> {
    signals: UsedNames<'a>,
    ports: UsedNames<'a>,
}

impl<'a> Joined<'a> {
    /// None yet. It takes no memory.
    fn new(alloc: Global) -> Joined<'a>
        ensures { (w : Wire') → shares_any result w ≡ false }
    {
        Joined {
            signals: HashSet::new(alloc),
            ports: HashSet::new(alloc),
        }
    }

    /// Joins a signal and a port, and says whether neither was joined before.
    fn join(&mut self, wire: Wire<'a>) -> Result<bool, AllocError>
        ensures added { IfOk result (λ added. added ≡ not (shares_any self.old (lent wire.entry))) }
        ensures joined { OnOk result ((w : Wire') → shares_any self.new w ≡ (shares (lent wire.entry) w || shares_any self.old w)) }
    {
        let is_new_signal = put_name(&mut self.signals, wire.signal.name.as_slice())?;
        let is_new_port = put_name(&mut self.ports, wire.port.name.as_slice())?;
        Ok(is_new_signal && is_new_port)
    }

    /// Whether a statement is no good call, or has a signal or a port of an earlier one.
    fn is_wrong(&mut self, names: &CellNames<'_>, conc: &'a Conc) -> Result<bool, AllocError>
        ensures wrong { IfOk result (λ is_wrong. is_wrong ≡ option_map_or (shares_any self.old) (wire_of names.now conc.now) true) }
        ensures joined { OnOk result ((w : Wire') → shares_any self.new w ≡ (list_any (λ v. shares v w) (option_to_list (wire_of names.now conc.now)) || shares_any self.old w)) }
    {
        match wire_of(names, conc) {
            Some(wire) => Ok(!self.join(wire)?),
            None => Ok(true),
        }
    }
}

/// Puts the places of statements of a block at the end.
fn put_statements(
    alloc: Global,
    places: &mut Vec<Place>,
    names: &CellNames<'_>,
    statements: &[Conc],
) -> Result<(), AllocError>
    ensures { OnOk result (places.new.items ≡ places.old.items ++ each (places_6_at names.now) statements.now) }
{
    let mut joined = Joined::new(alloc);
    for conc in statements {
        let is_wrong = joined.is_wrong(names, conc)?;
        put_if(places, is_wrong, conc.place())?;
    }
    Ok(())
}
