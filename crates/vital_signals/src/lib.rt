//! The signals of a simulation with their drivers, and which of them have an event in a cycle.
#![tactic(auto)]

mod numbers;
mod signal;
mod signals;
mod sources;

pub use numbers::Numbers;
pub use signal::Signal;
pub use signals::{Signals, assignments_keep_values};
