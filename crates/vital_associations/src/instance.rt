//! The associations of an instance.

ghost use Rattle.std.specs.Prelude.{◌≡◌, ◌||◌, List, length, IfOk, OnOk};
ghost use Rattle.vital_associations.specs.Associations as one;
ghost use Rattle.vital_associations.specs.PortMaps as spec;
ghost use Rattle.vital_associations.specs.Points as points;
ghost use Rattle.vital_associations.specs.Spans.{AreApart, HasSpans, Span, is_met, takes_of};
ghost use Rattle.vital_structure.specs.Structures.{signals_of};

use crate::association::{Association, PortMap};
use crate::formals::Formals;
use crate::given::leading;
use crate::misfit::Misfit;
use crate::point::{Point, actual_point, formal_point};
use crate::spans::Spans;
use std::alloc::{AllocError, Global};
use std::collections::BTreeMap;
use vital_base::List;
use vital_nodes::Item;
use vital_structure::Structure;

/// The fault of an association, and where it stands.
#[derive(Clone, Copy)]
pub struct AssociationFault<'a> {
    pub why: Misfit,
    pub point: Point<'a>,
}

/// Why an instance has no associations.
#[derive(Clone, Copy)]
pub enum AssociationsError<'a> {
    /// One is a fault, first there.
    Fault(AssociationFault<'a>),
    NoMemory,
}

/// Where a fault of an item stands.
fn point_of<'a>(alloc: Global, why: Misfit, item: &'a Item) -> Result<Point<'a>, AllocError>
    ensures { IfOk result (λ point. points.lent point ≡ spec.point_of why item.now) }
{
    match why {
        Misfit::UnknownPort | Misfit::Twice => formal_point(alloc, item),
        Misfit::UnknownSignal | Misfit::Type | Misfit::Width | Misfit::Mode => {
            actual_point(alloc, item)
        }
    }
}

/// The fault of an item.
fn fault_of<'a>(alloc: Global, why: Misfit, item: &'a Item) -> AssociationsError<'a>
    ensures { spec.IsFault why item.now result }
{
    match point_of(alloc, why, item) {
        Ok(point) => AssociationsError::Fault(AssociationFault { why, point }),
        Err(_) => AssociationsError::NoMemory,
    }
}

/// The association of the item at a position behind earlier ones, or its fault. The spans are the bits that the earlier ones take, and
/// then that it takes too.
fn next<'a>(
    alloc: Global,
    port_map: &PortMap<'a, '_>,
    spans: &mut Spans<'a>,
    position: usize,
    item: &'a Item,
) -> Result<Association<'a>, AssociationsError<'a>>
    requires { AreApart spans.old.entries }
    ensures apart { OnOk result (AreApart spans.new.entries) }
    ensures next { (earlier : List one.Association) → HasSpans (one.port_map port_map.now) earlier spans.old.entries → length earlier ≡ position → spec.IsNext (one.port_map port_map.now) earlier item.now result }
    ensures taken { IfOk result (λ a. (s : Span) → is_met spans.new.entries s ≡ (is_met spans.old.entries s || takes_of (one.port_map port_map.now) s (one.lent a))) }
{
    match port_map.association_of(spans, position, item) {
        Ok(Ok(association)) => Ok(association),
        Ok(Err(why)) => Err(fault_of(alloc, why, item)),
        Err(_) => Err(AssociationsError::NoMemory),
    }
}

/// The associations of an instance of an entity with these ports in a unit, one for each item of its port map, or the first fault. It takes
/// time in proportion to the items, and to the logarithm of how many of them are parts of ports.
pub fn associations<'a>(
    alloc: Global,
    structure: &Structure<'a>,
    formals: &Formals<'a>,
    items: &'a [Item],
) -> Result<List<Association<'a>>, AssociationsError<'a>>
    ensures { spec.IsAssociated formals.now (signals_of structure.now) items.now result }
{
    let port_map = PortMap {
        structure,
        formals,
        leading: leading(items),
    };
    let mut found: Vec<Association<'a>> = Vec::new(alloc);
    let mut spans = BTreeMap::new(alloc);
    for item in items {
        let association = match next(alloc, &port_map, &mut spans, found.len(), item) {
            Ok(association) => association,
            Err(error) => return Err(error),
        };
        if found.push(association).is_err() {
            return Err(AssociationsError::NoMemory);
        }
    }
    Ok(List::new(found))
}
