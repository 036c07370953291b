//! How a library is refused that has no design under a top.

ghost use Rattle.std.specs.Prelude.{◌≡◌, false, Some};
ghost use Rattle.vital_netlist.specs.Refusals as net;
ghost use Rattle.vital_report.specs.Lines.{refused_netlist, said};
ghost use Rattle.vital_answers.specs.Given.{GivesDesignRefusal};
ghost use Rattle.vital_answers.specs.Outcome.{Stage};
ghost use Rattle.vital_answers.specs.Designs as spec;

use crate::cells::limit_line;
use crate::lines::end_with;
use crate::refusal::position_of;
use crate::status::Status;
use vital_base::{Breach, Sink};
use vital_netlist::{ElabError, Mark, NetFault, NetLimit};
use vital_report::{Limit, Line, NetlistWhy, Position, Printer};
use vital_words::NamedFile;

/// The line of a fault that stands at a place.
fn marked_line<'a>(files: &'a [NamedFile], why: NetlistWhy, mark: Mark<'a>) -> Line<'a>
    ensures { said result ≡ spec.marked_line files.now why (net.lent mark.entry) }
{
    Line::RefusedNetlist {
        why,
        at: position_of(files, mark.place),
        name: mark.name,
    }
}

/// The line of a breach of a cell.
fn cell_line<'a>(files: &'a [NamedFile], breach: Breach) -> Line<'a>
    ensures { said result ≡ spec.cell_line files.now breach }
{
    Line::RefusedCell {
        at: position_of(files, breach.place),
        clause: breach.clause,
    }
}

/// The line of a top that is missing.
fn missing_line<'a>(top: &'a [u8]) -> Line<'a>
    ensures { said result ≡ refused_netlist NetlistWhy.NoTop spec.nowhere (Some top.now) }
{
    Line::RefusedNetlist {
        why: NetlistWhy::NoTop,
        at: Position {
            file: b"-",
            line: 0,
            column: 0,
        },
        name: Some(top),
    }
}

/// The line of what is wrong in a netlist under this top.
fn net_line<'a>(files: &'a [NamedFile], top: &'a [u8], fault: NetFault<'a>) -> Line<'a>
    ensures { said result ≡ spec.net_line files.now top.now (net.lent_fault fault.entry) }
{
    match fault {
        NetFault::NoTop => missing_line(top),
        NetFault::UnknownUnit(mark) => marked_line(files, NetlistWhy::UnknownUnit, mark),
        NetFault::Loop(mark) => marked_line(files, NetlistWhy::Loop, mark),
        NetFault::UnknownPort(mark) => marked_line(files, NetlistWhy::UnknownPort, mark),
        NetFault::UnknownSignal(mark) => marked_line(files, NetlistWhy::UnknownSignal, mark),
        NetFault::WidthDiffers(mark) => marked_line(files, NetlistWhy::WidthDiffers, mark),
        NetFault::TypeDiffers(mark) => marked_line(files, NetlistWhy::TypeDiffers, mark),
        NetFault::TwiceAssociated(mark) => marked_line(files, NetlistWhy::TwiceAssociated, mark),
        NetFault::TwiceDeclared(mark) => marked_line(files, NetlistWhy::TwiceDeclared, mark),
        NetFault::NotStructural(mark) => marked_line(files, NetlistWhy::NotStructural, mark),
        NetFault::OutputToInputPort(mark) => {
            marked_line(files, NetlistWhy::OutputToInputPort, mark)
        }
        NetFault::TwoDrivers(mark) => marked_line(files, NetlistWhy::TwoDrivers, mark),
        NetFault::GenericMap(mark) => marked_line(files, NetlistWhy::GenericMap, mark),
        NetFault::NotLevel1(breach) => cell_line(files, breach),
    }
}

/// The line of a limit that is passed.
fn net_limit_line<'a>(files: &'a [NamedFile], limit: NetLimit) -> Line<'a>
    ensures { said result ≡ spec.net_limit_line files.now limit }
{
    let (limit, place) = match limit {
        NetLimit::Instances(place) => (Limit::Instances, place),
        NetLimit::Nets(place) => (Limit::Nets, place),
        NetLimit::Depth(place) => (Limit::Depth, place),
        NetLimit::Cell(passed) => return limit_line(files, passed),
    };
    Line::RefusedLimit {
        limit,
        at: position_of(files, place),
    }
}

/// Refuses a library that has no design under a top, unless memory ran out.
pub fn refuse_design<K: Sink>(
    files: &[NamedFile],
    top: &[u8],
    error: ElabError<'_>,
    printer: &mut Printer<'_, K>,
) -> Status
    requires goes_on { printer.old.stopped ≡ false }
    ensures { Stage (GivesDesignRefusal files.now top.now (net.lent_error error.entry)) result printer.old printer.new }
{
    match error {
        ElabError::Net(fault) => end_with(&net_line(files, top, fault), Status::Netlist, printer),
        ElabError::Limit(limit) => end_with(&net_limit_line(files, limit), Status::Limit, printer),
        ElabError::NoMemory => Status::NoMemory,
    }
}
