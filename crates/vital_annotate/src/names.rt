//! The names of the generics that an entry is for.

ghost use Rattle.std.specs.Prelude.{◌≡◌, ◌∷◌, ◌++◌, [], IfOk, OnOk};
ghost use Rattle.std.specs.Option.{option_map, option_to_list};
ghost use Rattle.vital_annotate.specs.Names as spec;
ghost use Rattle.vital_annotate.specs.Tries.{tail, tried};

use std::alloc::AllocError;
use vital_base::Name;
use vital_sdf::{Edge, Port, Timing};

/// The edges that may stand behind a name. The names with edges are tried before the name alone.
#[derive(Clone, Copy)]
pub enum Edges {
    /// No name is tried.
    NoName,
    /// There is one place for an edge.
    One(Option<Edge>),
    /// There are two.
    Two(Option<Edge>, Option<Edge>),
}

/// The word of an edge in names.
pub fn edge_word(edge: Edge) -> &'static [u8]
    ensures { result.now ≡ spec.edge_word edge }
{
    match edge {
        Edge::Posedge => b"posedge",
        Edge::Negedge => b"negedge",
    }
}

/// The word for an edge or for none, where a name has another.
pub fn edge_or_none(edge: Option<Edge>) -> &'static [u8]
    ensures { result.now ≡ spec.edge_or_none edge }
{
    match edge {
        Some(edge) => edge_word(edge),
        None => b"noedge",
    }
}

/// Puts a word in small letters at the end of a name.
pub fn put_folded(name: &mut Vec<u8>, word: &[u8]) -> Result<(), AllocError>
    ensures { OnOk result (name.new.items ≡ name.old.items ++ spec.folded word.now) }
{
    for byte in word {
        name.push(byte.to_ascii_lowercase())?;
    }
    Ok(())
}

/// Puts an underline and a word in small letters at the end of a name.
fn put_word(name: &mut Vec<u8>, word: &[u8]) -> Result<(), AllocError>
    ensures { OnOk result (name.new.items ≡ name.old.items ++ 95 ∷ spec.folded word.now) }
{
    name.push(b'_')?;
    put_folded(name, word)
}

/// Puts the name of a condition, if there is one.
fn put_condition(name: &mut Vec<u8>, condition: &Option<Name>) -> Result<(), AllocError>
    ensures { OnOk result (name.new.items ≡ name.old.items ++ tail condition.now) }
{
    match condition {
        Some(condition) => put_word(name, condition.as_slice()),
        None => Ok(()),
    }
}

/// A prefix and a port, with a condition.
fn put_port_text(
    name: &mut Vec<u8>,
    prefix: &[u8],
    port: &Name,
    condition: &Option<Name>,
) -> Result<(), AllocError>
    ensures { OnOk result (name.new.items ≡ spec.folded (spec.joined (prefix.now ∷ port.now ∷ option_to_list condition.now))) }
{
    name.clear();
    put_folded(name, prefix)?;
    put_word(name, port.as_slice())?;
    put_condition(name, condition)
}

/// A prefix and two ports, with a condition.
fn put_ports_text(
    name: &mut Vec<u8>,
    prefix: &[u8],
    first: &Name,
    second: &Name,
    condition: &Option<Name>,
) -> Result<(), AllocError>
    ensures { OnOk result (name.new.items ≡ spec.folded (spec.joined (prefix.now ∷ first.now ∷ second.now ∷ option_to_list condition.now))) }
{
    name.clear();
    put_folded(name, prefix)?;
    put_word(name, first.as_slice())?;
    put_word(name, second.as_slice())?;
    put_condition(name, condition)
}

/// The name of a port that is one of the cell itself.
fn own_name(port: &Port) -> Option<&Name>
    ensures { option_map (λ name. name.now) result ≡ spec.own_name port.now.labels port.now.name }
{
    match port.labels.as_slice() {
        [] => Some(&port.name),
        _ => None,
    }
}

/// The same for the second port of an entry.
fn own_port(port: &Option<Port>) -> Option<&Name>
    ensures { option_map (λ name. name.now) result ≡ spec.own_port port.now }
{
    match port {
        Some(port) => own_name(port),
        None => None,
    }
}

/// The edge of the second port of an entry.
fn edge_at(port: &Option<Port>) -> Option<Edge>
    ensures { result ≡ spec.edge_at port.now }
{
    match port {
        Some(port) => port.edge,
        None => None,
    }
}

/// Puts the name of the generic of a path.
pub fn put_path_names(name: &mut Vec<u8>, timing: &Timing) -> Result<Edges, AllocError>
    ensures { IfOk result (λ edges. tried name.new.items edges ≡ spec.path_names timing.now) }
{
    let Some(first) = own_name(&timing.first) else {
        return Ok(Edges::NoName);
    };
    let Some(second) = own_port(&timing.second) else {
        return Ok(Edges::NoName);
    };
    put_ports_text(name, b"tpd", first, second, &timing.condition)?;
    Ok(Edges::One(timing.first.edge))
}

/// Puts that of an interconnection, the labels before whose port are those of an instance.
pub fn put_wire_names(name: &mut Vec<u8>, timing: &Timing) -> Result<Edges, AllocError>
    ensures { IfOk result (λ edges. tried name.new.items edges ≡ spec.wire_names timing.now) }
{
    put_port_text(name, b"tipd", &timing.first.name, &timing.condition)?;
    Ok(Edges::One(timing.first.edge))
}

/// Puts that of a check of one port.
pub fn put_port_names(
    name: &mut Vec<u8>,
    prefix: &[u8],
    timing: &Timing,
) -> Result<Edges, AllocError>
    ensures { IfOk result (λ edges. tried name.new.items edges ≡ spec.port_names prefix.now timing.now) }
{
    let Some(port) = own_name(&timing.first) else {
        return Ok(Edges::NoName);
    };
    put_port_text(name, prefix, port, &timing.condition)?;
    Ok(Edges::One(timing.first.edge))
}

/// Puts that of a check of two ports.
pub fn put_check_names(
    name: &mut Vec<u8>,
    prefix: &[u8],
    timing: &Timing,
) -> Result<Edges, AllocError>
    ensures { IfOk result (λ edges. tried name.new.items edges ≡ spec.check_names prefix.now timing.now) }
{
    let Some(first) = own_name(&timing.first) else {
        return Ok(Edges::NoName);
    };
    let Some(second) = own_port(&timing.second) else {
        return Ok(Edges::NoName);
    };
    put_ports_text(name, prefix, first, second, &timing.condition)?;
    Ok(Edges::Two(timing.first.edge, edge_at(&timing.second)))
}
