//! The names of timing generics, split into their parts.

ghost use Rattle.std.specs.Prelude.{◌≡◌, ◌+◌, ◌<◌, ◌≤◌, ◌^◌, length, position, ◌==◌, IfSome, IfNone};
ghost use Rattle.std.specs.Option.{option_map};
ghost use Rattle.vital_level0.specs.Directions.{fits};
ghost use Rattle.vital_level0.specs.Prefixes.{edge_text, may_have_condition, most_edges, second_port, underscore};
ghost use Rattle.vital_level0.specs.Split.{AtMostOneSplitting, IsSplit, Splits};
ghost use Rattle.vital_level0.specs.Steps.{after_ports, before_edge, condition_range, edge_at_end, edges_taken, front_part, parts_of_name, parts_with, port_at_front, port_of, prefix_of, rest_after, second_at_front};

use crate::direction::Direction;
use crate::parts::{Edge, Parts, Prefix};
use crate::port_index::PortIndex;
use vital_base::Name;

/// The parts that the name of a timing generic splits into, among the ports of its entity. None where it does not split. It takes
/// no memory, and looks a few times at each byte of the name.
pub fn split_generic(name: &Name, ports: &PortIndex<'_>) -> Option<Parts>
    ensures parts { result ≡ parts_of_name ports.now name.now }
    ensures found { IfSome result (λ p. IsSplit name.now ports.now p) }
    ensures none { IfNone result (¬ Splits name.now ports.now) }
{
    split_name(name.as_slice(), ports)
}

/// A law: no name splits in two ways.
pub fn one_splitting()
    ensures { AtMostOneSplitting }
{}

/// The parts of a name, found from its front to the ports and then from its end.
pub fn split_name(name: &[u8], ports: &PortIndex<'_>) -> Option<Parts>
    ensures { result ≡ parts_of_name ports.now name.now }
{
    let (word, text) = front_part(name);
    let kind = Prefix::of_word(word)?;
    let (first, text) = port_at_front(ports, Direction::In, text)?;
    let (second, text) = second_at_front(ports, kind, text)?;
    parts_with(kind, first, second, name.len() - text.len(), text)
}

/// What stands before the first underscore, and the rest from it on.
#[tactic(auto, using(crate::proofs::FrontLemmas::front_at, crate::proofs::FrontLemmas::rest_at))]
fn front_part(text: &[u8]) -> (&[u8], &[u8])
    ensures front { result.0.now ≡ front_part text.now }
    ensures rest { result.1.now ≡ rest_after text.now }
    ensures shorter { length result.1.now ≤ length text.now }
{
    let length = first_underscore(text).unwrap_or(text.len());
    text.split_at(length)
}

/// Where the first underscore stands, if there is one.
fn first_underscore(text: &[u8]) -> Option<usize>
    ensures { result ≡ position (λ byte. byte == underscore) text.now }
{
    text.iter().position(|byte| *byte == b'_')
}

/// A port after its underscore at the front of a text, and the rest.
fn port_at_front<'t>(
    ports: &PortIndex<'_>,
    direction: Direction,
    text: &'t [u8],
) -> Option<(usize, &'t [u8])>
    ensures found { option_map (λ found. (found.0, found.1.now)) result ≡ port_at_front ports.now (fits direction) text.now }
    ensures shorter { IfSome result (λ found. length found.1.now ≤ length text.now) }
{
    match text {
        [b'_', text @ ..] => {
            let (part, rest) = front_part(text);
            let number = port_of(ports, direction, part)?;
            Some((number, rest))
        }
        _ => None,
    }
}

/// The number of the port that a part names, if its mode fits.
fn port_of(ports: &PortIndex<'_>, direction: Direction, part: &[u8]) -> Option<usize>
    ensures { result ≡ port_of ports.now (fits direction) part.now }
{
    let number = ports.number(part)?;
    let mode = ports.mode(number)?;
    if direction.fits(mode) {
        Some(number)
    } else {
        None
    }
}

/// The second port of a prefix, if it has one, and the rest.
fn second_at_front<'t>(
    ports: &PortIndex<'_>,
    kind: Prefix,
    text: &'t [u8],
) -> Option<(Option<usize>, &'t [u8])>
    ensures found { option_map (λ found. (found.0, found.1.now)) result ≡ second_at_front ports.now (second_port kind) text.now }
    ensures shorter { IfSome result (λ found. length found.1.now ≤ length text.now) }
{
    match kind.second_port() {
        None => Some((None, text)),
        Some(direction) => {
            let (number, rest) = port_at_front(ports, direction, text)?;
            Some((Some(number), rest))
        }
    }
}

/// The parts, where a text that begins at a byte of the name follows the ports.
fn parts_with(
    kind: Prefix,
    first: usize,
    second: Option<usize>,
    start: usize,
    text: &[u8],
) -> Option<Parts>
    requires { start + length text.now < 2 ^ 64 }
    ensures { result ≡ parts_with kind first second start (edges_taken (most_edges kind) text.now) }
{
    let (text, edges) = edges_taken(kind, text);
    if !text.is_empty() && !kind.may_have_condition() {
        return None;
    }
    Some(Parts {
        kind,
        first,
        second,
        condition: condition_range(start, text),
        edges,
    })
}

/// Where the condition's name stands behind its underscore, if there is one.
fn condition_range(start: usize, text: &[u8]) -> Option<(usize, usize)>
    requires { start + length text.now < 2 ^ 64 }
    ensures { result ≡ condition_range start text.now }
{
    match text {
        [] => None,
        [_, name @ ..] => Some((start + 1, start + 1 + name.len())),
    }
}

/// The edges that a text ends in, as many as the prefix may have, and what stands before them.
fn edges_taken(kind: Prefix, text: &[u8]) -> (&[u8], [Edge; 2])
    ensures text { result.0.now ≡ (edges_taken (most_edges kind) text.now).0 }
    ensures edges { result.1 ≡ (edges_taken (most_edges kind) text.now).1 }
{
    let most = kind.most_edges();
    if most == 0 {
        return (text, [Edge::Absent, Edge::Absent]);
    }
    let Some((front, last)) = edge_at_end(text) else {
        return (text, [Edge::Absent, Edge::Absent]);
    };
    if most == 1 {
        return (front, [last, Edge::Absent]);
    }
    match edge_at_end(front) {
        None => (front, [last, Edge::Absent]),
        Some((before, test)) => (before, [test, last]),
    }
}

/// The edge that a text ends in, and what stands before it.
fn edge_at_end(text: &[u8]) -> Option<(&[u8], Edge)>
    ensures { option_map (λ found. (found.0.now, found.1)) result ≡ edge_at_end text.now }
{
    if let Some(front) = text.strip_suffix(b"_posedge") {
        return Some((front, Edge::Posedge));
    }
    if let Some(front) = text.strip_suffix(b"_negedge") {
        return Some((front, Edge::Negedge));
    }
    if let Some(front) = text.strip_suffix(b"_noedge") {
        return Some((front, Edge::Noedge));
    }
    None
}
