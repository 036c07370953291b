//! What is declared in a cell: the types of declarations, and what their names stand for in expressions (IEEE 1076.4).
#![tactic(auto)]

mod alias;
mod constant;
mod declared_type;
mod number;
mod operand;
mod range;
mod variable;

pub use alias::{AliasTarget, alias_target, is_level, is_of_levels, literal_index, offset_in};
pub use constant::{character, columns_of, row_items};
pub use declared_type::{DeclaredType, TableType, type_of};
pub use number::literal_value;
pub use operand::{OperandKind, operand_kind};
pub use range::{has_length, length, offset};
pub use variable::{VariableType, variable_type};
