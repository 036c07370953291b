//! Sets of changes between levels.

ghost use Rattle.std.specs.Prelude.{◌≡◌};
ghost use Rattle.vital_edges.specs.Edges.{edges_of, holds};

use vital_logic::{Level, to_x01};

/// A set of changes between X, 0 and 1. Each has the name of its change in IEEE 1076.4 (VitalTransitionType): the level before it,
/// and then the level after it.
#[derive(Clone, Copy, Debug, PartialEq, Eq)]
pub struct EdgeSet {
    tr01: bool,
    tr10: bool,
    tr0x: bool,
    trx1: bool,
    tr1x: bool,
    trx0: bool,
}

/// The set that has no change.
const EMPTY: EdgeSet = EdgeSet {
    tr01: false,
    tr10: false,
    tr0x: false,
    trx1: false,
    tr1x: false,
    trx0: false,
};

/// The set of these changes.
macro_rules! edges {
    ($($change:ident)*) => {
        EdgeSet {
            $($change: true,)*
            ..EMPTY
        }
    };
}

/// The set that an edge symbol stands for, as the package prints it (IEEE 1076.4, package VITAL_Primitives,
/// VitalEdgeSymbolType). None for a byte that is no edge symbol.
pub fn edges_of(symbol: u8) -> Option<EdgeSet>
    ensures { result ≡ edges_of symbol }
{
    match symbol {
        b'/' => Some(edges!(tr01)),
        b'\\' => Some(edges!(tr10)),
        b'r' => Some(edges!(tr0x)),
        b'f' => Some(edges!(tr1x)),
        b'^' => Some(edges!(trx1)),
        b'v' => Some(edges!(trx0)),
        b'P' => Some(edges!(tr01 trx1)),
        b'N' => Some(edges!(tr10 trx0)),
        b'p' => Some(edges!(tr01 tr0x)),
        b'n' => Some(edges!(tr10 tr1x)),
        b'R' => Some(edges!(trx1 tr01 tr0x)),
        b'F' => Some(edges!(trx0 tr10 tr1x)),
        b'E' => Some(edges!(trx0 trx1)),
        b'A' => Some(edges!(tr0x trx1)),
        b'D' => Some(edges!(tr1x trx0)),
        b'*' => Some(edges!(trx0 trx1 tr0x tr01 tr1x tr10)),
        _ => None,
    }
}

impl EdgeSet {
    /// Is the change from one level to another in the set? Both are taken without their strengths, as X, 0 or 1 (To_X01).
    pub fn holds(&self, old: Level, new: Level) -> bool
        ensures { result ≡ holds self.now old new }
    {
        match (to_x01(old), to_x01(new)) {
            (Level::Zero, Level::One) => self.tr01,
            (Level::One, Level::Zero) => self.tr10,
            (Level::Zero, Level::X) => self.tr0x,
            (Level::X, Level::One) => self.trx1,
            (Level::One, Level::X) => self.tr1x,
            (Level::X, Level::Zero) => self.trx0,
            _ => false,
        }
    }
}
