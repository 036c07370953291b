//! What is printed of a run.

/// The signals of a run whose first values and events are printed.
#[derive(Clone, Copy, PartialEq, Eq)]
pub enum Watch {
    /// The bits of the top's ports.
    Ports,
    /// All signals.
    All,
}
