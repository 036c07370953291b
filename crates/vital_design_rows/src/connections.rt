//! What the bits of a port with one association are associated with.

use super::ranges::{Written, put_numeral};
use super::words::value;
use std::alloc::{AllocError, Global};
use vital_associations::{Actual, Association};
use vital_base::Place;
use vital_connections::{Connected, Connections, Object, Span};
use vital_logic::{from_byte, to_byte};
use vital_naturals::Natural;
use vital_structure::{Part, Shape};

/// A port or a signal.
fn object(shape: Shape<'_>) -> Object<'_> {
    Object {
        name: b"P".as_slice(),
        place: Place {
            file: 0,
            line: 1,
            column: 1,
        },
        mode: None,
        shape,
        is_resolved: true,
        default: None,
    }
}

/// What an instance of one port is associated with, in a unit of one signal, by one association.
fn connections_of(
    alloc: Global,
    port: Shape<'_>,
    part: Part<'_>,
    signal: Shape<'_>,
    actual: Actual<'_>,
) -> Result<Connections, AllocError> {
    let association = Association {
        port: 0,
        part,
        actual,
    };
    Connections::new(alloc, &[object(port)], &[object(signal)], &[association])
}

/// What is associated: `open`, a level, or this part of the signal.
fn actual_of<'a>(given: &str, part: Part<'a>) -> Actual<'a> {
    match given.as_bytes() {
        b"open" => Actual::Open,
        [letter] => match from_byte(*letter) {
            Some(level) => Actual::Literal(level),
            None => Actual::Open,
        },
        _ => Actual::Signal(0, part),
    }
}

/// Puts what a bit in a span is associated with: how far the bit of the signal is from the left, a level, or `open`.
fn put_span(
    alloc: Global,
    span: &Span,
    bit: &Natural,
    text: &mut String,
) -> Result<(), AllocError> {
    match &span.connected {
        Connected::Open => text.push_str("open"),
        Connected::Level(level) => write!(text, "'{}'", char::from(to_byte(*level))),
        Connected::Bits(_, first) => {
            let distance = bit.minus(alloc, &span.first)?;
            put_numeral(alloc, &first.plus(alloc, &distance)?, text)
        }
    }
}

/// Puts what each of so many bits is associated with, and then the runs of those that are associated with no bit.
fn put_connections(
    alloc: Global,
    connections: &Connections,
    bits: u32,
    text: &mut String,
) -> Result<(), AllocError> {
    text.push_str("bits")?;
    let mut bit = Natural::zero(alloc);
    for _ in 0..bits {
        text.push(' ')?;
        match connections.span(0, &bit) {
            Some(span) => put_span(alloc, span, &bit, text)?,
            None => text.push('-')?,
        }
        bit = bit.successor(alloc)?;
    }
    text.push_str("\nown")?;
    for run in connections.own() {
        text.push(' ')?;
        put_numeral(alloc, &run.first, text)?;
        text.push_str("..")?;
        put_numeral(alloc, &run.end, text)?;
    }
    Ok(())
}

/// Puts what the bits of the port that words write are associated with.
pub fn put_connected(alloc: Global, words: &[String], text: &mut String) -> Result<(), AllocError> {
    let port = Written::of(alloc, words, "port=")?;
    let part = Written::of(alloc, words, "part=")?;
    let signal = Written::of(alloc, words, "signal=")?;
    let of_signal = Written::of(alloc, words, "of=")?;
    let bits: u32 = value(words, "bits=").parse().unwrap_or(0);
    let connections = connections_of(
        alloc,
        port.shape(),
        part.part(),
        signal.shape(),
        actual_of(value(words, "given="), of_signal.part()),
    )?;
    put_connections(alloc, &connections, bits, text)
}
