//! Operands of the expressions of Level 1 of VITAL (IEEE 1076.4): the trees that typed expressions are, what a name stands for where an
//! expression stands, what it is where a type is asked of it, and the forms of items in parentheses.
#![tactic(auto)]

mod calls;
mod faults;
mod item_forms;
mod named_booleans;
mod named_levels;
mod named_tables;
mod named_times;
mod position;
mod tree;

pub use calls::{TableActuals, only_items, table_actuals, table_first};
pub use faults::Faults;
pub use item_forms::{
    are_positional, levels_of_text, only_value, physical_time, printed_level, value_of_others,
    values,
};
pub use named_tables::is_table;
pub use named_times::even_delay;
pub use position::{Position, Standing};
pub use tree::{
    BooleanExpr, ConstantName, Control, DelayExpr, LevelExpr, TimeExpr, TruthTableCall, VectorExpr,
};
