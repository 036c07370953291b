//! Faults as lines: a word, the file, the line and the column, and the identifier, limit or clause there.

use super::words::file_name;
use std::alloc::AllocError;
use vital_associations::Misfit;
use vital_base::Place;
use vital_instances::{CellFault, Fault};
use vital_limits::CellLimit;
use vital_netlist::{ElabError, NetFault, NetLimit};
use vital_nodes::Identifier;
use vital_structure::UnitFault;

/// Puts bytes, each as a character.
pub fn put_bytes(text: &mut String, bytes: &[u8]) -> Result<(), AllocError> {
    for byte in bytes {
        text.push(char::from(*byte))?;
    }
    Ok(())
}

/// Puts a word and a place.
fn put_at(text: &mut String, words: &[String], why: &str, place: Place) -> Result<(), AllocError> {
    let file = file_name(words, place.file);
    write!(text, "{why} {file} {} {}", place.line, place.column)
}

/// Puts a fault at a place, with the name that stands there or a dash.
fn put_named(
    text: &mut String,
    words: &[String],
    why: &str,
    place: Place,
    name: Option<&[u8]>,
) -> Result<(), AllocError> {
    put_at(text, words, why, place)?;
    text.push(' ')?;
    put_bytes(text, name.unwrap_or(b"-"))?;
    text.push('\n')
}

/// Puts a fault at an identifier.
fn put_marked(
    text: &mut String,
    words: &[String],
    why: &str,
    identifier: &Identifier,
) -> Result<(), AllocError> {
    let name = Some(identifier.name.as_slice());
    put_named(text, words, why, identifier.place, name)
}

/// The word of a misfit of an association.
fn misfit_word(why: Misfit) -> &'static str {
    match why {
        Misfit::UnknownPort => "unknown-port",
        Misfit::Twice => "twice",
        Misfit::UnknownSignal => "unknown-signal",
        Misfit::Type => "type",
        Misfit::Width => "width",
        Misfit::Mode => "mode",
    }
}

/// The word of a limit of a cell.
fn limit_word(limit: CellLimit) -> &'static str {
    match limit {
        CellLimit::Ports => "ports",
        CellLimit::Rows => "rows",
        CellLimit::Columns => "columns",
        CellLimit::Paths => "paths",
        CellLimit::Delay => "delay",
    }
}

/// Puts the fault of a port or declaration.
fn put_declaration(
    text: &mut String,
    words: &[String],
    fault: UnitFault<'_>,
) -> Result<(), AllocError> {
    match fault {
        UnitFault::WrongType(identifier) => put_marked(text, words, "type", identifier),
        UnitFault::TwiceDeclared(identifier) => {
            put_marked(text, words, "twice-declared", identifier)
        }
        UnitFault::NotStructural(place) => put_named(text, words, "not-structural", place, None),
    }
}

/// Puts the fault of a cell.
fn put_cell(text: &mut String, words: &[String], fault: CellFault) -> Result<(), AllocError> {
    match fault {
        CellFault::Limit(passed) => {
            put_at(text, words, "limit", passed.place)?;
            write!(text, " {}\n", limit_word(passed.limit))
        }
        CellFault::Broken(breach) => {
            put_at(text, words, "not-level1", breach.place)?;
            write!(text, " L{}.{}\n", breach.clause.level, breach.clause.number)
        }
    }
}

/// Puts the first fault of the instances under a top.
pub fn put_fault(text: &mut String, words: &[String], fault: Fault<'_>) -> Result<(), AllocError> {
    match fault {
        Fault::NoTop => text.push_str("no-top\n"),
        Fault::UnknownUnit(name) => put_marked(text, words, "unknown-unit", name),
        Fault::Loop(name) => put_marked(text, words, "loop", name),
        Fault::TooDeep(name) => put_marked(text, words, "depth", name),
        Fault::TooManyInstances(name) => put_marked(text, words, "instances", name),
        Fault::GenericMap(name) => put_marked(text, words, "generic-map", name),
        Fault::Declaration(fault) => put_declaration(text, words, fault),
        Fault::NotStructural(place) => put_named(text, words, "not-structural", place, None),
        Fault::Association(fault) => {
            let name = match fault.point.identifier {
                Some(identifier) => Some(identifier.name.as_slice()),
                None => None,
            };
            put_named(text, words, misfit_word(fault.why), fault.point.place, name)
        }
        Fault::Cell(fault) => put_cell(text, words, fault),
    }
}

/// Puts why instances have no design.
pub fn put_refusal(
    text: &mut String,
    words: &[String],
    error: ElabError<'_>,
) -> Result<(), AllocError> {
    match error {
        ElabError::Limit(NetLimit::Nets(place)) => {
            put_at(text, words, "nets", place)?;
            text.push('\n')
        }
        ElabError::Net(NetFault::TwoDrivers(mark)) => {
            put_named(text, words, "two-drivers", mark.place, mark.name)
        }
        _ => Err(AllocError),
    }
}
