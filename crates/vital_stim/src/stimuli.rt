//! Stimuli: ports, and the values that they take.

use vital_base::{List, Ports, Time};
use vital_logic::Level;

/// One line of a stimulus file: from a time on a port has a value.
#[derive(Clone, Copy, PartialEq, Eq)]
pub struct StimLine {
    /// The time from the start of the run on, in femtoseconds: at most 2^60.
    pub time: Time,
    /// The number of the port among the ports, from 0.
    pub port: u32,
    /// The level that the port takes.
    pub value: Level,
}

/// The ports that lines may name, and the lines in order. No line's time is below that of a line before it.
#[derive(Drop)]
pub struct Stimuli {
    pub ports: Ports,
    pub lines: List<StimLine>,
}
