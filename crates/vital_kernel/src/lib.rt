//! What a run simulates: signals, their drivers, and the instances of cells whose processes assign to these; the processes of such a
//! network, and its runs by the simulation cycle (IEEE 1076-1993, 8.1, 9.2, 12.6; IEEE 1076.4): states, cycles and lines as definitions,
//! with laws of them, and the simulation that does what these say.
#![tactic(auto)]

mod activation;
mod alike;
mod cells;
mod counts;
mod effects;
mod first;
mod inputs;
mod instances;
mod kernel;
mod laws;
mod listeners;
mod lists;
mod network;
mod placed;
mod places;
mod port_parts;
mod printing;
mod processes;
mod program;
mod run_error;
mod sensitivities;
mod signals;
mod stimulated;
mod stimuli;

pub use kernel::Kernel;
pub use laws::{one_run, one_run_from, port_run, ports_are_a_design};
pub use network::Network;
pub use run_error::{CycleError, RunError};
