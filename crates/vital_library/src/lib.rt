//! Libraries: the units of several VHDL files, with the architectures of each entity.
#![tactic(auto)]

mod checking;
mod constants;
mod entry;
mod error;
mod fault;
mod faults;
mod library;
mod names;
mod numbers;
mod position;
mod unit_at;

pub use error::{LibraryError, MOST_UNITS};
pub use library::{Library, gather};
