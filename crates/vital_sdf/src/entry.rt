//! The entries of SDF files.

use vital_base::{List, Name, Place};

/// A change of a port that an entry is for.
#[derive(Clone, Copy, PartialEq, Eq)]
pub enum Edge {
    Posedge,
    Negedge,
}

/// A port as an entry names it: the parts of its word, and an edge if one is written.
#[derive(Drop)]
pub struct Port {
    /// The parts before the last.
    pub labels: List<Name>,
    /// The last part, which can be empty.
    pub name: Name,
    pub edge: Option<Edge>,
}

/// A value for each corner, in femtoseconds, or none where it is left out. A single number is all three.
#[derive(Clone, Copy, PartialEq, Eq)]
pub struct Triple {
    pub min: Option<i64>,
    pub typ: Option<i64>,
    pub max: Option<i64>,
}

/// What the values of an entry are.
#[derive(Clone, Copy, PartialEq, Eq)]
pub enum TimingKind {
    /// Delays of a path.
    IoPath,
    /// Delays of an interconnection to a port.
    Port,
    Setup,
    Hold,
    Recovery,
    Removal,
    /// A setup time and then a hold time.
    SetupHold,
    /// A recovery time and then a removal time.
    RecRem,
    Period,
    Width,
}

/// What becomes of the values that were there.
#[derive(Clone, Copy, PartialEq, Eq)]
pub enum Mode {
    /// The entry's values stand in their place.
    Replace,
    /// The entry's values are added to them.
    Add,
}

/// Delays, or limits of a timing check.
#[derive(Drop)]
pub struct Timing {
    pub kind: TimingKind,
    pub mode: Mode,
    /// The name of its condition, if one is written; the name can be empty.
    pub condition: Option<Name>,
    /// The only port, or the first of two.
    pub first: Port,
    pub second: Option<Port>,
    pub values: List<Triple>,
}

/// What an entry says.
#[derive(Drop)]
pub enum EntryKind {
    /// Something that no generic takes: a DEVICE, NETDELAY, PATHPULSE, PATHPULSEPERCENT, SKEW, NOCHANGE, BIDIRECTSKEW,
    /// TIMINGENV or LABEL.
    Passed,
    /// A timing check with a conditional port that does not end with a port.
    NoPort,
    Timing(Timing),
}

/// An entry of a cell.
#[derive(Drop)]
pub struct Entry {
    /// The place of its keyword: of IOPATH, and not of a COND or CONDELSE before it.
    pub place: Place,
    pub kind: EntryKind,
}
