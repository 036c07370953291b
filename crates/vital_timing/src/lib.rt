//! What timing is described by (IEEE 1076.4, package VITAL_Timing): delays and their types, the times of literals, and how glitches
//! are treated.
#![tactic(auto)]

mod delay;
mod glitch_mode;
mod time_literal;

pub use delay::{Delay, DelayType};
pub use glitch_mode::GlitchMode;
pub use time_literal::{GREATEST_DELAY, UnitOfTime};
