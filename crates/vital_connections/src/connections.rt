//! What the bits of the ports of an instance are associated with.

ghost use Rattle.std.specs.Prelude.{◌≡◌, ℕ, true, map, IfOk, IfSome};
ghost use Rattle.std.specs.Option.{option_and_then};
ghost use Rattle.vital_associations.specs.Associations.{lent as lent'};
ghost use Rattle.vital_connections.specs.Connections.{AreApart, connection, own_bits};
ghost use Rattle.vital_connections.specs.Objects.{lent, shape_at};
ghost use Rattle.vital_connections.specs.Runs.{bits_of_runs};
ghost use Rattle.vital_connections.specs.Spans as spec;

use crate::object::Object;
use crate::own::own_bits;
use crate::run::Run;
use crate::span::Span;
use crate::spans::{sorted_spans, span_at};
use std::alloc::{AllocError, Global};
use std::marker::Model;
use vital_associations::Association;
use vital_naturals::Natural;

/// What the bits of the ports of an instance are associated with (IEEE 1076-1993, 1.1.1.2 and 12.6.1). It is made once for an instance in a
/// unit, however often the unit stands in a design. Bits that stand side by side are kept as one. Contracts see it as spans that are
/// associated, and the bits that are associated with no bit of the unit.
#[derive(Drop)]
pub struct Connections {
    /// By ports and from left to right.
    spans: Vec<Span>,
    /// By ports and from left to right.
    own: Vec<Run>,
}

impl Model for Connections {
    ghost use Rattle.vital_connections.specs.Runs.{bits_of_runs};
    ghost use Rattle.vital_connections.specs.Spans.{AreSorted, Kept};

    ghost Value = { Kept };

    ghost view = { λ c. record { spans = c.spans.items; own = bits_of_runs c.own.items } };

    ghost invariant = { λ c. AreSorted c.spans.items };
}

impl Connections {
    /// The connections of an instance with these ports and associations, of which no two have a bit in common, in a unit with these ports
    /// and signals. It takes time in proportion to the ports, and to the associations times the digits of their number.
    pub fn new(
        alloc: Global,
        ports: &[Object<'_>],
        signals: &[Object<'_>],
        associations: &[Association<'_>],
    ) -> Result<Connections, AllocError>
        requires { AreApart (shape_at (map lent ports.now)) (map lent' associations.now) }
        ensures spans { IfOk result (λ c. (port bit : ℕ) → spec.given c.spans port bit ≡ connection (shape_at (map lent ports.now)) (shape_at (map lent signals.now)) port bit (map lent' associations.now)) }
        ensures own { IfOk result (λ c. c.own ≡ own_bits (λ port bit. connection (shape_at (map lent ports.now)) (shape_at (map lent signals.now)) port bit (map lent' associations.now)) (map lent ports.now)) }
    {
        let spans = sorted_spans(alloc, ports, signals, associations)?;
        let own = own_bits(alloc, ports, &spans)?;
        Ok(Connections { spans, own })
    }

    /// The bits of the ports that are associated with no bit of the unit, as runs of bits that stand side by side, by ports and from left to
    /// right.
    pub fn own(&self) -> &[Run]
        ensures { bits_of_runs result.now ≡ self.now.own }
    {
        &self.own
    }

    /// The span in which a bit of a port is, if it is in one. It takes time in proportion to the digits of the number of associations.
    pub fn span(&self, port: usize, bit: &Natural) -> Option<&Span>
        ensures there { IfSome result (λ s. spec.has_bit s.now port bit.now ≡ true) }
        ensures given { option_and_then (λ s. spec.given_by port bit.now s.now) result ≡ spec.given self.now.spans port bit.now }
    {
        span_at(&self.spans, port, bit)
    }
}
