//! What a process sees of a signal.

use vital_base::Time;
use vital_logic::Level;

/// What a bit of a port or of an internal signal is when a process is activated (IEEE 1076-1993, 14.1).
#[derive(Clone, Copy, PartialEq, Eq)]
pub struct Input {
    /// Its value.
    pub value: Level,
    /// Its value before its last event, or its value where it had none (LAST_VALUE).
    pub last: Level,
    /// How long ago its last event was, in femtoseconds, or TIME'HIGH where it had none (LAST_EVENT).
    pub age: Time,
}
