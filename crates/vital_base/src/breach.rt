//! The clauses of the levels of VITAL, and where they are broken.

use crate::list::List;
use crate::place::Place;

/// A clause of a level, as L0.7: the numbers before and after its point. Clauses are ordered by level and then by number.
#[derive(Clone, Copy, PartialEq, Eq, PartialOrd, Ord)]
pub struct Clause {
    pub level: u8,
    pub number: u8,
}

/// A place at which a clause is broken. Breaches are ordered by place and then by clause.
#[derive(Clone, Copy, PartialEq, Eq, PartialOrd, Ord)]
pub struct Breach {
    pub place: Place,
    pub clause: Clause,
}

/// Breaches, one after the other.
pub type Breaches = List<Breach>;
