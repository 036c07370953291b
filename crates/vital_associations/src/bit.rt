//! Bits of ports, in order.

ghost use Rattle.std.specs.Prelude.{◌≡◌, nat_eq, refl};
ghost use Rattle.std.proofs.Common.{rules};
ghost use Rattle.std.specs.Cmp.{partial_order_from_own_ties};
ghost use Rattle.std.specs.Cmp.Rules.{comparing};
ghost use Rattle.std.specs.Ordering.{as_partial_cmp, eq_of_both, nat_cmp, on};
ghost use Rattle.vital_associations.specs.Spans.{order, rank};
ghost use Rattle.vital_declarations.specs.Numbers.{number};

use std::cmp::Ordering;
use vital_base::Name;
use vital_declarations::length;
use vital_nodes::{Direction, LiteralBounds};

/// A bit of a port.
#[derive(Clone, Copy)]
pub struct Bit<'a> {
    /// The number of the port.
    pub port: usize,
    /// The index of the bit if the port is a vector.
    pub index: Option<&'a Name>,
}

/// How the numbers of two literals compare, however long they are.
fn compare(a: &Name, b: &Name) -> Ordering
    ensures { result ≡ nat_cmp (number a.now) (number b.now) }
{
    let between = LiteralBounds {
        left: b,
        direction: Direction::To,
        right: a,
    };
    match length(between) {
        Some(0) => Ordering::Less,
        Some(1) => Ordering::Equal,
        Some(_) | None => Ordering::Greater,
    }
}

/// How the indices of two bits of one port compare.
fn compare_indices(a: &Bit<'_>, b: &Bit<'_>) -> Ordering
    ensures { result ≡ nat_cmp (rank a.now) (rank b.now) }
{
    match (a.index, b.index) {
        (Some(a), Some(b)) => compare(a, b),
        (Some(_), None) => Ordering::Greater,
        (None, Some(_)) => Ordering::Less,
        (None, None) => Ordering::Equal,
    }
}

/// Whether two bits of one port have one index.
fn have_one_index(a: &Bit<'_>, b: &Bit<'_>) -> bool
    ensures { result ≡ nat_eq (rank a.now) (rank b.now) }
{
    match compare_indices(a, b) {
        Ordering::Equal => true,
        Ordering::Less | Ordering::Greater => false,
    }
}

impl PartialEq for Bit<'_> {
    ghost eq = { eq_of_both (on (λ b. b.port) nat_eq) (on rank nat_eq) };

    ghost laws = { Prim.search (comparing, rules) };

    fn eq(&self, other: &Self) -> bool {
        self.port == other.port && have_one_index(self, other)
    }
}

impl Eq for Bit<'_> {
    ghost laws = { Prim.search (comparing, rules) };
}

impl PartialOrd for Bit<'_> {
    ghost partial_cmp = { as_partial_cmp order };

    ghost laws = { partial_order_from_own_ties (Prim.search (comparing, rules)) (Prim.search (comparing, rules)) };

    fn partial_cmp(&self, other: &Self) -> Option<Ordering> {
        Some(self.cmp(other))
    }
}

impl Ord for Bit<'_> {
    ghost cmp = { order };

    ghost total = { Prim.search (comparing, rules) };

    ghost matches_partial_cmp = { λ x y. refl };

    ghost matches_eq = { Prim.search (comparing, rules) };

    fn cmp(&self, other: &Self) -> Ordering {
        self.port
            .cmp(&other.port)
            .then(compare_indices(self, other))
    }
}
