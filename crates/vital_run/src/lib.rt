//! The one call that does all that the program does, over a shelf and a sink, with the definition of what it answers.
#![tactic(auto)]

mod elaborating;
mod network_run;
mod program;
mod self_run;
mod simulating;
mod stages;
mod stimuli;

pub use program::run;
pub use vital_answers::Status;
