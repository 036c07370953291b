//! The instances of a library under a top, in preorder (IEEE 1076-1993, 12.1), or the first fault: of the units that are entered, of their
//! instances with their associations, and of the cells.
#![tactic(auto)]

mod cell_fault;
mod child;
mod children;
mod entering;
mod entity_ports;
mod entry;
mod fault;
mod frame;
mod instance;
mod laws;
mod library_unit;
mod net_units;
mod open_units;
mod preorder;

pub use cell_fault::CellFault;
pub use child::Child;
pub use fault::{Fault, InstancesError};
pub use instance::{Instance, Position};
pub use laws::{instances_are_good, one_judge};
pub use library_unit::{LibraryUnit, unit_at};
pub use net_units::NetUnits;
pub use preorder::instances;
