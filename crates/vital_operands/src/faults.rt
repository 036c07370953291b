//! Where names and calls break other clauses.

ghost use Rattle.std.specs.Prelude.{◌≡◌, ◌++◌, IfOk, OnOk};
ghost use Rattle.std.specs.List.{list_any};
ghost use Rattle.vital_nodes.specs.Nodes.{Expression};
ghost use Rattle.vital_nodes.specs.Places.{place_of_expr};
ghost use Rattle.vital_operands.specs.Faults as spec;
ghost use Rattle.vital_operands.specs.Kept.{HasPlaces};
ghost use Rattle.vital_nodes.specs.Seen.{seen};

use std::alloc::{AllocError, Global};
use std::collections::BTreeSet;
use std::marker::Model;
use vital_base::Place;
use vital_nodes::{Expr, HasPlace, Node, nodes_of};

/// The places at which names and calls of a cell break clauses that speak of them. An expression with such a name in it breaks no
/// clause that speaks of the forms of expressions. Contracts see them as the list of these places.
#[derive(Drop)]
pub struct Faults<'a> {
    places: &'a [Place],
    set: BTreeSet<Place>,
}

impl<'a> Model for Faults<'a> {
    ghost use Rattle.std.specs.Prelude.{List};
    ghost use Rattle.vital_base.specs.declared.place.Place.{Place as Place'};
    ghost use Rattle.vital_operands.specs.Kept.{HasPlaces};

    ghost Value = { List Place' };

    ghost view = { λ faults. faults.places.now };

    ghost invariant = { λ faults. HasPlaces faults.set faults.places.now };
}

/// The set of places.
fn set_of(alloc: Global, places: &[Place]) -> Result<BTreeSet<Place>, AllocError>
    ensures { IfOk result (λ set. HasPlaces set places.now) }
{
    let mut set = BTreeSet::new(alloc);
    for place in places {
        set.insert(*place)?;
    }
    Ok(set)
}

impl<'a> Faults<'a> {
    /// The faults at these places.
    pub fn new(alloc: Global, places: &'a [Place]) -> Result<Faults<'a>, AllocError>
        ensures { IfOk result (λ faults. faults ≡ places.now) }
    {
        let set = set_of(alloc, places)?;
        Ok(Faults { places, set })
    }

    /// Whether one of them is at a place.
    fn has_place(&self, place: Place) -> bool
        ensures { result ≡ spec.is_at self.now place }
    {
        self.set.contains(&place)
    }

    /// Whether a node itself stands at one: a name, or the unit behind a number.
    fn has_node(&self, node: Node<'_>) -> bool
        ensures { result ≡ spec.is_faulty self.now (seen node.entry) }
    {
        match node {
            Node::Name(name) => self.has_place(name.place()),
            Node::Expression(Expr::Physical(physical)) => self.has_place(physical.get().unit.place),
            _ => false,
        }
    }

    /// Whether one of some nodes stands at one.
    fn has_any(&self, nodes: &[Node<'_>]) -> bool
        ensures { result ≡ list_any (λ node. spec.is_faulty self.now (seen node)) nodes.now }
    {
        nodes.iter().any(|node| self.has_node(*node))
    }

    /// Whether a node or one in it does. It takes time in proportion to the nodes.
    pub fn is_in(&self, alloc: Global, node: Node<'_>) -> Result<bool, AllocError>
        ensures { IfOk result (λ b. b ≡ spec.has_fault self.now (seen node.entry)) }
    {
        let nodes = nodes_of(alloc, node)?;
        Ok(self.has_any(&nodes))
    }

    /// Puts the place of an expression that is not of its form at the end, unless one of these faults is in it.
    pub fn break_at(
        &self,
        alloc: Global,
        expr: &Expr,
        broken: &mut Vec<Place>,
    ) -> Result<(), AllocError>
        ensures { OnOk result (broken.new.items ≡ broken.old.items ++ spec.own_breach self.now (place_of_expr expr.now) (Expression expr.now)) }
    {
        if !self.is_in(alloc, Node::Expression(expr))? {
            broken.push(expr.place())?;
        }
        Ok(())
    }
}
