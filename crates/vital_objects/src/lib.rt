//! The objects of a cell of VITAL (IEEE 1076.4; IEEE 1076-1993, 4.3.1): its ports, generics, signals, constants and variables, with their
//! values and defaults as typed trees, and what the constants of packages are worth.
#![tactic(auto)]

mod cell_reader;
mod constant;
mod control;
mod generic;
mod package_value;
mod port;
mod signal;
mod together;
mod variable;

pub use cell_reader::{CellReader, name_of};
pub use constant::{Constant, ConstantValue, read_constants};
pub use control::{ControlValue, Controls, read_controls};
pub use generic::{Generics, PlainGeneric, TimingGeneric, read_generics};
pub use package_value::{PackageValue, package_values};
pub use port::{Port, read_ports};
pub use signal::{Signal, own_declarations, read_signals};
pub use variable::{Variable, VariableKind, read_variables};
