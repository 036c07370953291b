//! What the activation of a process does.

use vital_path_delay::Send;
use vital_timing_checks::Violated;

/// What the activation of a process does beside what it keeps in its variables. Drivers are numbered within the cell, from 0: one for
/// each wire delay and each path delay, in the order of its statements. Bits are numbered from 0: those of the ports, and then those of
/// the internal signals.
#[derive(Clone, Copy, PartialEq, Eq)]
pub enum Effect {
    /// An assignment to the signal of a driver (IEEE 1076-1993, 8.4).
    Assign {
        driver: u32,
        send: Send,
    },
    /// The message that a port has a glitch.
    Glitch {
        port: u32,
    },
    /// The message that a check is violated: the bit that was tested, and the one that it was compared with, if there is one.
    Violation {
        test: u32,
        reference: Option<u32>,
        violated: Violated,
    },
}
