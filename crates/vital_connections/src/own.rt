//! The bits of ports that are associated with no bit.

ghost use Rattle.std.specs.Prelude.{◌≡◌, ◌≤◌, ◌++◌, length, map, IfOk, OnOk};
ghost use Rattle.vital_connections.specs.Objects.{lent};
ghost use Rattle.vital_connections.specs.Own as spec;
ghost use Rattle.vital_connections.specs.Runs.{bits_of_runs};
ghost use Rattle.vital_structure.specs.Shapes.{bits_of};

use crate::extent::length_of;
use crate::object::Object;
use crate::run::{Run, put_run, run_between};
use crate::span::{Connected, Span};
use std::alloc::{AllocError, Global};
use vital_naturals::Natural;

/// Puts the bits before a span that is associated with bits, from a bit on. It answers the bit behind the span.
fn put_gap(
    alloc: Global,
    runs: &mut Vec<Run>,
    from: Natural,
    span: &Span,
) -> Result<Natural, AllocError>
    ensures runs { OnOk result (bits_of_runs runs.new.items ≡ bits_of_runs runs.old.items ++ spec.gap span.now.connected from span.now) }
    ensures from { IfOk result (λ next. next ≡ spec.behind_gap span.now.connected from span.now) }
{
    match span.connected {
        Connected::Bits(_, _) => {
            let first = span.first.copy(alloc)?;
            put_run(runs, run_between(span.port, from, first))?;
            span.end.copy(alloc)
        }
        _ => Ok(from),
    }
}

/// Puts the bits of a port that are associated with no bit, where these are the spans of the port.
fn put_gaps(
    alloc: Global,
    runs: &mut Vec<Run>,
    port: usize,
    object: &Object<'_>,
    spans: &[Span],
) -> Result<(), AllocError>
    ensures { OnOk result (bits_of_runs runs.new.items ≡ bits_of_runs runs.old.items ++ spec.gaps port (bits_of (lent object.now).shape) spans.now 0) }
{
    let mut from = Natural::zero(alloc);
    for span in spans {
        from = put_gap(alloc, runs, from, span)?;
    }
    let end = length_of(alloc, object.shape)?;
    put_run(runs, run_between(port, from, end))
}

/// How many of the first spans are of a port.
fn leading(spans: &[Span], port: usize) -> usize
    ensures leading { result ≡ spec.leading port spans.now }
    ensures within { result ≤ length spans.now }
{
    for (count, span) in spans.iter().enumerate() {
        if span.port != port {
            return count;
        }
    }
    spans.len()
}

/// The bits of ports that are associated with no bit, by ports and from left to right, where these are the spans of the ports in this order.
pub(crate) fn own_bits(
    alloc: Global,
    ports: &[Object<'_>],
    spans: &[Span],
) -> Result<Vec<Run>, AllocError>
    ensures { IfOk result (λ runs. bits_of_runs runs.items ≡ spec.all_gaps 0 (map lent ports.now) spans.now) }
{
    let mut runs = Vec::new(alloc);
    let mut rest = spans;
    for (number, port) in ports.iter().enumerate() {
        let (here, others) = rest.split_at(leading(rest, number));
        put_gaps(alloc, &mut runs, number, port, here)?;
        rest = others;
    }
    Ok(runs)
}
