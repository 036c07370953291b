//! Reading ports.

ghost use Rattle.std.specs.Prelude.{◌≡◌, IfOk};
ghost use Rattle.vital_sdf.specs.Ports as spec;
ghost use Rattle.vital_sdf.specs.Reads.{Reads};
ghost use Rattle.vital_sdf_words.specs.Paths.{parts};

use crate::cursor::Cursor;
use crate::entry::{Edge, Port};
use crate::read_error::ReadError;
use std::alloc::{AllocError, Global};
use vital_base::{List, Name};
use vital_sdf_lexemes::Kind;
use vital_sdf_words::parts;

const LEFT_PARENTHESIS: u16 = Kind::LeftParenthesis as u16;

const POSEDGE: u16 = Kind::PosEdge as u16;

const NEGEDGE: u16 = Kind::NegEdge as u16;

/// A word as a port.
pub(crate) fn port_of_word(
    alloc: Global,
    word: &[u8],
    divider: u8,
    edge: Option<Edge>,
) -> Result<Port, AllocError>
    ensures { IfOk result (λ port. port ≡ spec.port_of_parts (parts divider word.now) edge) }
{
    let mut labels = parts(alloc, word, divider)?.into_vec();
    let name = match labels.pop() {
        Some(name) => name,
        None => Name::new(Vec::new(alloc)),
    };
    Ok(Port {
        labels: List::new(labels),
        name,
        edge,
    })
}

/// Takes a word for a port.
pub(crate) fn port_of(
    alloc: Global,
    cursor: &mut Cursor<'_>,
    edge: Option<Edge>,
) -> Result<Port, ReadError>
    ensures { Reads (spec.port_of edge cursor.old) result cursor.new }
{
    let divider = cursor.divider();
    let word = cursor.spelling();
    Ok(port_of_word(alloc, word, divider, edge)?)
}

/// The edge that a keyword is.
pub(crate) fn edge_of(kind: u16) -> Option<Edge>
    ensures { result ≡ spec.edge_of kind }
{
    match kind {
        POSEDGE => Some(Edge::Posedge),
        NEGEDGE => Some(Edge::Negedge),
        _ => None,
    }
}

/// An edge and its port.
#[tactic(auto, unfolding(crate::specs::Ports::edge_port))]
pub(crate) fn edge_port(alloc: Global, cursor: &mut Cursor<'_>) -> Result<Port, ReadError>
    ensures { Reads (spec.edge_port cursor.old) result cursor.new }
{
    let edge = edge_of(cursor.take());
    port_of(alloc, cursor, edge)
}

/// A port, or an edge and its port in parentheses.
#[tactic(auto, unfolding(crate::specs::Ports::port))]
pub(crate) fn port(alloc: Global, cursor: &mut Cursor<'_>) -> Result<Port, ReadError>
    ensures { Reads (spec.port cursor.old) result cursor.new }
{
    if cursor.kind() != LEFT_PARENTHESIS {
        return port_of(alloc, cursor, None);
    }
    cursor.skip();
    let found = edge_port(alloc, cursor)?;
    cursor.skip();
    Ok(found)
}
