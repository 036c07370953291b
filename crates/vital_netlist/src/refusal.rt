//! How faults of the instances under a top are refused.

ghost use Rattle.std.specs.Prelude.{◌≡◌, Some};
ghost use Rattle.vital_associations.specs.Points as points;
ghost use Rattle.vital_associations.specs.PortMaps as port_maps;
ghost use Rattle.vital_instances.specs.Faults as instances;
ghost use Rattle.vital_netlist.specs.Refusals as spec;
ghost use Rattle.vital_structure.specs.Faults as units;

use crate::net_fault::{ElabError, Mark, NetFault, NetLimit};
use vital_associations::{AssociationFault, Misfit, Point};
use vital_base::Place;
use vital_instances::{CellFault, Fault};
use vital_nodes::Identifier;
use vital_structure::UnitFault;

/// A place where no name is told.
fn bare(place: Place) -> Mark<'static>
    ensures { spec.lent result ≡ spec.bare place }
{
    Mark { place, name: None }
}

/// An identifier with its place.
fn mark_of(identifier: &Identifier) -> Mark<'_>
    ensures { spec.lent result ≡ spec.mark_of identifier.now }
{
    Mark {
        place: identifier.place,
        name: Some(identifier.name.as_slice()),
    }
}

/// A point with the name of its identifier.
fn mark_at(point: Point<'_>) -> Mark<'_>
    ensures { spec.lent result ≡ spec.mark_at (points.lent point.entry) }
{
    match point.identifier {
        Some(identifier) => Mark {
            place: point.place,
            name: Some(identifier.name.as_slice()),
        },
        None => bare(point.place),
    }
}

/// The fault of a port or declaration.
fn of_declaration(fault: UnitFault<'_>) -> NetFault<'_>
    ensures { spec.lent_fault result ≡ spec.of_declaration (units.lent fault.entry) }
{
    match fault {
        UnitFault::WrongType(identifier) => NetFault::TypeDiffers(mark_of(identifier)),
        UnitFault::TwiceDeclared(identifier) => NetFault::TwiceDeclared(mark_of(identifier)),
        UnitFault::NotStructural(place) => NetFault::NotStructural(bare(place)),
    }
}

/// The fault of an association.
fn of_association(fault: AssociationFault<'_>) -> NetFault<'_>
    ensures { spec.lent_fault result ≡ spec.of_association (port_maps.lent_fault fault.entry) }
{
    let mark = mark_at(fault.point);
    match fault.why {
        Misfit::UnknownPort => NetFault::UnknownPort(mark),
        Misfit::Twice => NetFault::TwiceAssociated(mark),
        Misfit::UnknownSignal => NetFault::UnknownSignal(mark),
        Misfit::Type => NetFault::TypeDiffers(mark),
        Misfit::Width => NetFault::WidthDiffers(mark),
        Misfit::Mode => NetFault::OutputToInputPort(mark),
    }
}

/// The fault of a cell.
fn of_cell(fault: CellFault) -> ElabError<'static>
    ensures { spec.lent_error result ≡ Some (spec.of_cell fault) }
{
    match fault {
        CellFault::Limit(passed) => ElabError::Limit(NetLimit::Cell(passed)),
        CellFault::Broken(breach) => ElabError::Net(NetFault::NotLevel1(breach)),
    }
}

/// How a fault of the instances under a top is refused.
pub fn refusal_of(fault: Fault<'_>) -> ElabError<'_>
    ensures { spec.lent_error result ≡ Some (spec.refusal_of (instances.lent fault.entry)) }
{
    match fault {
        Fault::NoTop => ElabError::Net(NetFault::NoTop),
        Fault::UnknownUnit(name) => ElabError::Net(NetFault::UnknownUnit(mark_of(name))),
        Fault::Loop(name) => ElabError::Net(NetFault::Loop(mark_of(name))),
        Fault::TooDeep(name) => ElabError::Limit(NetLimit::Depth(name.place)),
        Fault::TooManyInstances(name) => ElabError::Limit(NetLimit::Instances(name.place)),
        Fault::GenericMap(name) => ElabError::Net(NetFault::GenericMap(mark_of(name))),
        Fault::Declaration(fault) => ElabError::Net(of_declaration(fault)),
        Fault::NotStructural(place) => ElabError::Net(NetFault::NotStructural(bare(place))),
        Fault::Association(fault) => ElabError::Net(of_association(fault)),
        Fault::Cell(fault) => of_cell(fault),
    }
}
