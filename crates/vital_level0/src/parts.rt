//! The parts that the name of a timing generic splits into (IEEE 1076.4, timing generics).

ghost use Rattle.std.specs.Prelude.{◌≡◌};
ghost use Rattle.std.specs.Option.{option_map};
ghost use Rattle.vital_level0.specs.Directions.{fits};
ghost use Rattle.vital_level0.specs.Prefixes.{may_have_condition, most_edges, second_port};
ghost use Rattle.vital_level0.specs.Steps.{prefix_of};

use crate::direction::Direction;

/// What a timing generic's name begins with.
#[derive(Clone, Copy, Debug, PartialEq, Eq)]
pub enum Prefix {
    /// A propagation delay, from an input to an output.
    Tpd,
    /// The delay of an interconnection before an input.
    Tipd,
    /// A setup time, of a test port before a reference port's edge.
    Tsetup,
    /// A hold time.
    Thold,
    /// A recovery time.
    Trecovery,
    /// A removal time.
    Tremoval,
    /// A least period.
    Tperiod,
    /// A least pulse width.
    Tpw,
    /// The delay of an input signal for negative constraints.
    Tisd,
    /// The delay of an input clock for negative constraints.
    Ticd,
}

/// An edge that a timing generic's name ends in.
#[derive(Clone, Copy, Debug, PartialEq, Eq)]
pub enum Edge {
    /// None is written.
    Absent,
    Noedge,
    Posedge,
    Negedge,
}

/// The parts of a timing generic's name. Ports are numbered from 0 in the order of the entity.
#[derive(Clone, Copy, Debug, PartialEq, Eq)]
pub struct Parts {
    pub kind: Prefix,
    pub first: usize,
    /// The second port, for a prefix that has two.
    pub second: Option<usize>,
    /// Where the condition's name begins and ends in the name of the generic, in bytes, if there is one.
    pub condition: Option<(usize, usize)>,
    /// The edge of the test port, or the only one, and then that of the reference port.
    pub edges: [Edge; 2],
}

impl Prefix {
    /// The prefix of a word.
    pub fn of_word(word: &[u8]) -> Option<Prefix>
        ensures { result ≡ prefix_of word.now }
    {
        if word == b"tpd".as_slice() {
            Some(Prefix::Tpd)
        } else if word == b"tipd".as_slice() {
            Some(Prefix::Tipd)
        } else if word == b"tsetup".as_slice() {
            Some(Prefix::Tsetup)
        } else if word == b"thold".as_slice() {
            Some(Prefix::Thold)
        } else if word == b"trecovery".as_slice() {
            Some(Prefix::Trecovery)
        } else if word == b"tremoval".as_slice() {
            Some(Prefix::Tremoval)
        } else if word == b"tperiod".as_slice() {
            Some(Prefix::Tperiod)
        } else if word == b"tpw".as_slice() {
            Some(Prefix::Tpw)
        } else if word == b"tisd".as_slice() {
            Some(Prefix::Tisd)
        } else if word == b"ticd".as_slice() {
            Some(Prefix::Ticd)
        } else {
            None
        }
    }

    /// How the second port is used, if there is one. The first one is read.
    pub fn second_port(self) -> Option<Direction>
        ensures { option_map fits result ≡ second_port self }
    {
        match self {
            Prefix::Tpd => Some(Direction::Out),
            Prefix::Tsetup | Prefix::Thold | Prefix::Trecovery | Prefix::Tremoval | Prefix::Tisd =>
                Some(Direction::In),
            Prefix::Tipd | Prefix::Tperiod | Prefix::Tpw | Prefix::Ticd => None,
        }
    }

    /// Whether a condition's name may follow the ports.
    pub fn may_have_condition(self) -> bool
        ensures { result ≡ may_have_condition self }
    {
        !matches!(self, Prefix::Tipd | Prefix::Tisd | Prefix::Ticd)
    }

    /// How many edges there may be at most.
    pub fn most_edges(self) -> u8
        ensures { result ≡ most_edges self }
    {
        match self {
            Prefix::Tipd | Prefix::Tisd | Prefix::Ticd => 0,
            Prefix::Tpd | Prefix::Tperiod | Prefix::Tpw => 1,
            Prefix::Tsetup | Prefix::Thold | Prefix::Trecovery | Prefix::Tremoval => 2,
        }
    }
}
