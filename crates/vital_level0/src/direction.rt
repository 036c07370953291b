//! Which modes a port of a timing generic may have.

ghost use Rattle.std.specs.Prelude.{◌≡◌};
ghost use Rattle.vital_level0.specs.Directions.{fits};

use vital_nodes::Mode;

/// How a port is used.
#[derive(Clone, Copy, Debug, PartialEq, Eq)]
pub enum Direction {
    /// It is read.
    In,
    /// It is driven.
    Out,
}

impl Direction {
    /// Whether a port of a mode can be used so.
    pub fn fits(self, mode: Mode) -> bool
        ensures { result ≡ fits self mode }
    {
        match self {
            Direction::In => matches!(mode, Mode::In | Mode::Inout),
            Direction::Out => matches!(mode, Mode::Out | Mode::Inout | Mode::Buffer),
        }
    }
}
