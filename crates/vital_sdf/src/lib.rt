//! Reading SDF files (IEEE 1497): the entries of a file, cell by cell, or its first fault.
#![tactic(auto)]

mod cell;
mod check_port;
mod cursor;
mod entry;
mod group;
mod laws;
mod read;
mod read_error;
mod readers;
mod sdf_fault;

pub use entry::{Edge, Entry, EntryKind, Mode, Port, Timing, TimingKind, Triple};
pub use group::{Group, Instance, SdfFile};
pub use laws::one_reading;
pub use read::{SdfError, read_sdf};
pub use sdf_fault::SdfFault;
