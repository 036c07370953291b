//! The bits that associations take.

ghost use Rattle.std.specs.Prelude.{◌≡◌, ◌||◌, true, false, nat_le, OnOk};
ghost use Rattle.vital_associations.specs.Spans as spec;

use crate::bit::Bit;
use crate::span::Span;
use std::alloc::AllocError;
use std::cmp::Ordering;
use std::collections::BTreeMap;
use vital_base::Name;

/// Spans that have no bit in common, each by its first bit with the index of its last one.
pub type Spans<'a> = BTreeMap<Bit<'a>, Option<&'a Name>>;

/// Whether one bit does not stand behind another one.
fn is_upto(bit: Bit<'_>, other: Bit<'_>) -> bool
    ensures { result ≡ spec.is_upto bit.entry other.entry }
{
    match other.cmp(&bit) {
        Ordering::Less => false,
        Ordering::Equal | Ordering::Greater => true,
    }
}

/// The last span that begins with a bit or before it.
fn last_upto<'a>(spans: &Spans<'a>, bit: Bit<'a>) -> Option<(Bit<'a>, Option<&'a Name>)>
    ensures { spec.IsLastUpto spans.now.entries bit.entry result }
{
    match spans.range(..=bit).next_back() {
        Some((first, greatest)) => Some((*first, *greatest)),
        None => None,
    }
}

/// Whether one of the spans has a bit in common with a further one.
pub fn is_met<'a>(spans: &Spans<'a>, span: Span<'a>) -> bool
    requires { spec.AreApart spans.now.entries }
    ensures { result ≡ spec.is_met spans.now.entries (spec.lent span.entry) }
{
    match last_upto(spans, span.last()) {
        Some((bit, index)) => {
            let last = Bit {
                port: bit.port,
                index,
            };
            is_upto(span.first(), last)
        }
        None => false,
    }
}

/// Puts a span that has no bit in common with the others.
pub fn put_span<'a>(spans: &mut Spans<'a>, span: Span<'a>) -> Result<(), AllocError>
    requires apart { spec.AreApart spans.old.entries }
    requires whole { nat_le (spec.lent span).least (spec.lent span).greatest ≡ true }
    requires free { spec.is_met spans.old.entries (spec.lent span) ≡ false }
    ensures apart { OnOk result (spec.AreApart spans.new.entries) }
    ensures met { OnOk result ((s : spec.Span) → spec.is_met spans.new.entries s ≡ (spec.meets (spec.lent span.entry) s || spec.is_met spans.old.entries s)) }
{
    match spans.insert(span.first(), span.greatest) {
        Ok(_) => Ok(()),
        Err(_) => Err(AllocError),
    }
}
