//! Reading a stimulus file: the times at which the ports of a unit take their values.
#![tactic(auto)]

mod builder;
mod digits;
mod entry;
mod fault;
mod fields;
mod given_ports;
mod known_ports;
mod lines;
mod port_form;
mod reading;
mod spellings;
mod stimuli;

pub use fault::{StimError, StimFault, StimWhy};
pub use reading::read_stim;
pub use stimuli::{StimLine, Stimuli};
