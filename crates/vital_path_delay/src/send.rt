use vital_base::{Kind, Time};
use vital_logic::Level;

/// A signal assignment to the output of a path delay (IEEE 1076-1993, 8.4).
#[derive(Clone, Copy, Debug, PartialEq, Eq)]
pub struct Send {
    pub kind: Kind,
    pub value: Level,
    /// After how long the output takes the value, in femtoseconds.
    pub delay: Time,
}

/// What a path delay sends to its output, in order, and whether it found a glitch.
#[derive(Clone, Copy, Debug, PartialEq, Eq)]
pub struct GlitchOut {
    pub first: Send,
    pub second: Option<Send>,
    pub glitched: bool,
}
