//! The delays of paths, and what a path delay sends to its output and keeps for its next call (IEEE 1076.4, package VITAL_Timing).
#![tactic(auto)]

mod call;
mod change;
mod glitch_data;
mod path;
mod scheduling;
mod send;

pub use call::{path_delay, path_start};
pub use change::calc_delay;
pub use glitch_data::GlitchData;
pub use path::{Path, select};
pub use scheduling::glitch;
pub use send::{GlitchOut, Send};
