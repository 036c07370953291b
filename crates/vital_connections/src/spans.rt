//! The spans of the associations of an instance.

ghost use Rattle.std.specs.Prelude.{◌≡◌, ◌++◌, ◌∷◌, [], ℕ, true, All, map, IfOk, IfSome, OnOk};
ghost use Rattle.std.specs.List.Sorted.{IsPermutation, IsSorted};
ghost use Rattle.std.specs.Option.{option_and_then, option_copied};
ghost use Rattle.vital_associations.specs.Associations.{lent as lent'};
ghost use Rattle.vital_connections.specs.Connections.{AreApart, connection};
ghost use Rattle.vital_connections.specs.Objects.{lent, shape_at};
ghost use Rattle.vital_connections.specs.Spans as spec;

use crate::object::Object;
use crate::span::{Span, span_of};
use std::alloc::{AllocError, Global};
use vital_associations::Association;
use vital_naturals::Natural;

/// Puts the span of an association at the end, if it has bits.
fn put_span(
    alloc: Global,
    spans: &mut Vec<Span>,
    ports: &[Object<'_>],
    signals: &[Object<'_>],
    association: &Association<'_>,
) -> Result<(), AllocError>
    ensures { OnOk result (spans.new.items ≡ spans.old.items ++ spec.spans_of (shape_at (map lent ports.now)) (shape_at (map lent signals.now)) (lent' association.now ∷ [])) }
{
    if let Some(span) = span_of(alloc, ports, signals, association)? {
        spans.push(span)?;
    }
    Ok(())
}

/// The spans of associations, in their order.
fn spans_of(
    alloc: Global,
    ports: &[Object<'_>],
    signals: &[Object<'_>],
    associations: &[Association<'_>],
) -> Result<Vec<Span>, AllocError>
    ensures { IfOk result (λ spans. spans.items ≡ spec.spans_of (shape_at (map lent ports.now)) (shape_at (map lent signals.now)) (map lent' associations.now)) }
{
    let mut spans = Vec::new(alloc);
    for association in associations {
        put_span(alloc, &mut spans, ports, signals, association)?;
    }
    Ok(spans)
}

/// Sorts spans by ports and from left to right.
fn sort(spans: &mut Vec<Span>) -> Result<(), AllocError>
    ensures permutation { OnOk result (IsPermutation spans.old.items spans.new.items) }
    ensures sorted { OnOk result (IsSorted spec.order spans.new.items) }
{
    spans.sort_by(|a, b| a.compare(b))
}

/// The spans of associations that have no bit in common, by ports and from left to right.
pub(crate) fn sorted_spans(
    alloc: Global,
    ports: &[Object<'_>],
    signals: &[Object<'_>],
    associations: &[Association<'_>],
) -> Result<Vec<Span>, AllocError>
    requires { AreApart (shape_at (map lent ports.now)) (map lent' associations.now) }
    ensures sorted { IfOk result (λ spans. spec.AreSorted spans.items) }
    ensures inside { IfOk result (λ spans. All (spec.BeginsInside (shape_at (map lent ports.now))) spans.items) }
    ensures given { IfOk result (λ spans. (port bit : ℕ) → spec.given spans.items port bit ≡ connection (shape_at (map lent ports.now)) (shape_at (map lent signals.now)) port bit (map lent' associations.now)) }
{
    let mut spans = spans_of(alloc, ports, signals, associations)?;
    sort(&mut spans)?;
    Ok(spans)
}

/// The last span of sorted ones that does not begin behind a bit of a port.
fn last_upto<'a>(spans: &'a [Span], port: usize, bit: &Natural) -> Option<&'a Span>
    requires { spec.AreSorted spans.now }
    ensures { option_copied result ≡ spec.last_upto port bit.now spans.now }
{
    let count = spans.partition_point(|span| span.begins_upto(port, bit));
    let (upto, _) = spans.split_at(count);
    upto.last()
}

/// The span in which a bit of a port is, if it is in one of sorted ones.
#[tactic(auto, using(crate::proofs::FindLemmas::given_last))]
pub(crate) fn span_at<'a>(spans: &'a [Span], port: usize, bit: &Natural) -> Option<&'a Span>
    requires { spec.AreSorted spans.now }
    ensures there { IfSome result (λ s. spec.has_bit s.now port bit.now ≡ true) }
    ensures given { option_and_then (λ s. spec.given_by port bit.now s.now) result ≡ spec.given spans.now port bit.now }
{
    match last_upto(spans, port, bit) {
        Some(span) => span.if_has(port, bit),
        None => None,
    }
}
