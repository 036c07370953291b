//! The ground of Level 1 of VITAL (IEEE 1076.4): what the names in a cell mean.
#![tactic(auto)]

mod cell_names;
mod declared;
mod declared_lists;
mod first_names;
mod library_names;
mod meaning;
mod predeclared;
mod process_names;
mod redeclared;
mod site;
mod type_names;
mod viewpoint;
mod words;

pub use cell_names::CellNames;
pub use declared::{Declared, declared_by};
pub use first_names::put_first;
pub use library_names::LibraryNames;
pub use meaning::{Meaning, PackageConstant};
pub use predeclared::{
    Check, Conversion, Function, Inputs, Predeclared, Primitive, Procedure, Severity, TypeName,
};
pub use process_names::ProcessNames;
pub use site::{CellUnit, Site};
pub use viewpoint::{DeclaredTogether, viewpoints};
