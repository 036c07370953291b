//! Limits that a cell passes, and which of them comes first.

ghost use Rattle.std.specs.Prelude.{◌≡◌};
ghost use Rattle.std.specs.List.{reduce};
ghost use Rattle.vital_limits.specs.Passed.{comes_before, first_of, number};

use vital_base::Place;

/// A limit of one cell. They are ordered as they stand here.
#[derive(Clone, Copy, Debug, PartialEq, Eq)]
pub enum CellLimit {
    /// At most 256 ports.
    Ports,
    /// At most 128 rows in a table.
    Rows,
    /// At most 32 columns in a table.
    Columns,
    /// At most 64 paths in a call of a path delay.
    Paths,
    /// At most 2^50 fs in a time literal.
    Delay,
}

/// A limit that a cell passes, and where.
#[derive(Clone, Copy, PartialEq, Eq)]
pub struct PassedLimit {
    pub place: Place,
    pub limit: CellLimit,
}

impl CellLimit {
    /// How many limits stand before it.
    fn number(self) -> u8
        ensures { result ≡ number self }
    {
        match self {
            CellLimit::Ports => 0,
            CellLimit::Rows => 1,
            CellLimit::Columns => 2,
            CellLimit::Paths => 3,
            CellLimit::Delay => 4,
        }
    }
}

impl PassedLimit {
    /// Whether it comes before another: at an earlier place, or at the same place as an earlier limit.
    fn comes_before(self, other: PassedLimit) -> bool
        ensures { result ≡ comes_before self other }
    {
        self.place < other.place
            || (self.place == other.place && self.limit.number() < other.limit.number())
    }

    /// Of two the one that comes first.
    fn first_of(self, other: PassedLimit) -> PassedLimit
        ensures { result ≡ first_of self other }
    {
        if other.comes_before(self) {
            other
        } else {
            self
        }
    }
}

/// The first of limits by place, and at one place by limit, if there is one.
pub fn earliest(limits: &[PassedLimit]) -> Option<PassedLimit>
    ensures { result ≡ reduce first_of limits.now }
{
    limits
        .iter()
        .copied()
        .reduce(|first, limit| first.first_of(limit))
}
