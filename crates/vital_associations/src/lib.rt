//! The associations of one instance in a netlist unit (IEEE 1076-1993, 1.1.1.2 and 9.6): what is associated with each port, and the first
//! fault.
#![tactic(auto)]

mod actual;
mod association;
mod bit;
mod bounds;
mod formals;
mod given;
mod identifiers;
mod instance;
mod misfit;
mod point;
mod span;
mod spans;
mod sum;

pub use actual::Actual;
pub use association::Association;
pub use formals::Formals;
pub use instance::{AssociationFault, AssociationsError, associations};
pub use misfit::Misfit;
pub use point::Point;
