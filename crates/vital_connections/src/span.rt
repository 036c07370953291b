//! What bits of a port that stand side by side are associated with.

ghost use Rattle.std.specs.Prelude.{◌≡◌, ◌+◌, true, map, IfOk, IfSome};
ghost use Rattle.std.specs.Option.{option_and_then};
ghost use Rattle.vital_associations.specs.Actuals as actuals;
ghost use Rattle.vital_associations.specs.Associations as associations;
ghost use Rattle.vital_connections.specs.Objects as objects';
ghost use Rattle.vital_connections.specs.Spans as spec;
ghost use Rattle.vital_structure.specs.Shapes as shapes;

use crate::extent::{first_of, length_of};
use crate::object::{Object, shape_at};
use std::alloc::{AllocError, Global};
use std::cmp::Ordering;
use vital_associations::{Actual, Association};
use vital_logic::Level;
use vital_naturals::Natural;
use vital_structure::{Part, Shape};

/// What the bits of a span are associated with.
#[derive(Drop)]
pub enum Connected {
    /// Nothing, by `open`.
    Open,
    /// A level.
    Level(Level),
    /// Bits of the port or signal of a number of the unit in which the instance stands, of which the first is so far from the left.
    Bits(usize, Natural),
}

/// Bits of a port that stand side by side, and what they are associated with.
#[derive(Drop)]
pub struct Span {
    /// The number of the port.
    pub port: usize,
    /// How far its first bit is from the left.
    pub first: Natural,
    /// How far the bit behind its last one is from the left.
    pub end: Natural,
    pub connected: Connected,
}

impl Span {
    /// How it compares with another span: by ports, and then by the first bits.
    pub(crate) fn compare(&self, other: &Span) -> Ordering
        ensures { result ≡ spec.order self.now other.now }
    {
        self.port
            .cmp(&other.port)
            .then(self.first.compare(&other.first))
    }

    /// Whether it has a bit of a port.
    pub(crate) fn has_bit(&self, port: usize, bit: &Natural) -> bool
        ensures { result ≡ spec.has_bit self.now port bit.now }
    {
        self.port == port && !bit.is_less(&self.first) && bit.is_less(&self.end)
    }

    /// It, if it has a bit of a port.
    pub(crate) fn if_has(&self, port: usize, bit: &Natural) -> Option<&Span>
        ensures there { IfSome result (λ s. spec.has_bit s.now port bit.now ≡ true) }
        ensures given { option_and_then (λ s. spec.given_by port bit.now s.now) result ≡ spec.given_by port bit.now self.now }
    {
        if self.has_bit(port, bit) {
            Some(self)
        } else {
            None
        }
    }

    /// Whether it does not begin behind a bit of a port.
    pub(crate) fn begins_upto(&self, port: usize, bit: &Natural) -> bool
        ensures { result ≡ spec.begins_upto port bit.now self.now }
    {
        self.port < port || self.port == port && !bit.is_less(&self.first)
    }
}

/// What the bits of a part of a port or signal are, as what is associated with them; nothing if the part does not begin in the range.
fn bits_at(
    alloc: Global,
    signals: &[Object<'_>],
    number: usize,
    part: Part<'_>,
) -> Result<Option<Connected>, AllocError>
    ensures { IfOk result (λ connected. connected ≡ spec.bits_at (objects'.shape_at (map objects'.lent signals.now)) number (shapes.lent_part part.entry)) }
{
    match first_of(alloc, shape_at(signals, number), part)? {
        Some(first) => Ok(Some(Connected::Bits(number, first))),
        None => Ok(None),
    }
}

/// What an actual gives, if it begins in its range, in a unit with these ports and signals.
fn connected_by(
    alloc: Global,
    signals: &[Object<'_>],
    actual: Actual<'_>,
) -> Result<Option<Connected>, AllocError>
    ensures { IfOk result (λ connected. connected ≡ spec.connected_by (objects'.shape_at (map objects'.lent signals.now)) (actuals.lent actual.entry)) }
{
    match actual {
        Actual::Open => Ok(Some(Connected::Open)),
        Actual::Literal(level) => Ok(Some(Connected::Level(level))),
        Actual::Signal(number, part) => bits_at(alloc, signals, number, part),
    }
}

/// The bit behind the last one of a part that begins with this bit.
fn end_of(
    alloc: Global,
    shape: Shape<'_>,
    part: Part<'_>,
    first: &Natural,
) -> Result<Natural, AllocError>
    ensures { IfOk result (λ end. end ≡ first.now + shapes.bits_of (shapes.shape_of_part (shapes.lent shape.entry) (shapes.lent_part part.entry))) }
{
    first.plus(alloc, &length_of(alloc, shape.part(part))?)
}

/// The bits of a port between two, if there are some, and what they are associated with.
fn span_between(port: usize, first: Natural, end: Natural, connected: Connected) -> Option<Span>
    ensures { result ≡ spec.span_between port (first, end) connected }
{
    if first.is_less(&end) {
        Some(Span {
            port,
            first,
            end,
            connected,
        })
    } else {
        None
    }
}

/// The bits that an association with this first bit of its port associates, if there are some.
fn span_from(
    alloc: Global,
    shape: Shape<'_>,
    signals: &[Object<'_>],
    association: &Association<'_>,
    first: Natural,
) -> Result<Option<Span>, AllocError>
    ensures { IfOk result (λ span. span ≡ spec.span_with (objects'.shape_at (map objects'.lent signals.now)) (associations.lent association.now) (first, first + shapes.bits_of (shapes.shape_of_part (shapes.lent shape.entry) (shapes.lent_part association.now.part)))) }
{
    let end = end_of(alloc, shape, association.part, &first)?;
    match connected_by(alloc, signals, association.actual)? {
        Some(connected) => Ok(span_between(association.port, first, end, connected)),
        None => Ok(None),
    }
}

/// The bits that an association associates, if there are some, of an instance with these ports in a unit with these ports and signals.
pub(crate) fn span_of(
    alloc: Global,
    ports: &[Object<'_>],
    signals: &[Object<'_>],
    association: &Association<'_>,
) -> Result<Option<Span>, AllocError>
    ensures { IfOk result (λ span. span ≡ spec.span_of (objects'.shape_at (map objects'.lent ports.now)) (objects'.shape_at (map objects'.lent signals.now)) (associations.lent association.now)) }
{
    let shape = shape_at(ports, association.port);
    match first_of(alloc, shape, association.part)? {
        Some(first) => span_from(alloc, shape, signals, association, first),
        None => Ok(None),
    }
}
