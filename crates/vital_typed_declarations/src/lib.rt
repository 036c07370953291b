//! Values and defaults of the declarations of a cell of VITAL (IEEE 1076.4) as typed trees, and where they are not of their types.
#![tactic(auto)]

mod asked_type;
mod declaration;
mod interface;
mod sited;
mod value;

pub use asked_type::{AskedType, asked_of_generic, asked_of_object, asked_of_port};
pub use declaration::put_broken_in_regions;
pub use interface::put_broken_in_interface;
pub use sited::{SitedDeclaration, sited_declarations};
pub use value::{TypedValue, read_generic_default, read_value, read_value_if_given};
