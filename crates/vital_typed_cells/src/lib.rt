//! The typed tree of a cell of Level 1 of VITAL (IEEE 1076.4), for elaboration and simulation: its objects, wires and processes, with its
//! names kept; and the laws of typed trees: where a cell meets Level 1, its typed tree is sound. The check of a cell gives its typed tree, or
//! the first limit that it passes or the first clause that it breaks; its timing generics begin with the delays of their defaults.
#![tactic(auto)]

mod actual_laws;
mod bit_numbers;
mod cell_laws;
mod check;
mod checked;
mod declared_names;
mod expr_laws;
mod kept_states;
mod laws;
mod level;
mod numbers;
mod package_levels;
mod process;
mod section_laws;
mod sound_packages;
mod spelled_names;
mod statement_laws;
mod truth_table;
mod typed_cell;
mod typed_packages;
mod value_laws;
mod values;
mod wire;
mod worths;

pub use actual_laws::{actuals_are_told, read_actuals_are_sound};
pub use bit_numbers::BitNumbers;
pub use cell_laws::{kept_variables_differ, names_differ, ports_are_driven_once, wires_are_apart};
pub use check::{CheckError, check_cell};
pub use checked::Checked;
pub use declared_names::{tree_names_are_formed, tree_names_differ};
pub use expr_laws::{outcomes_are_told, read_trees_are_sound, read_vectors_fit};
pub use kept_states::tree_states_differ;
pub use laws::{scopes_are_whole, typed_is_sound};
pub use numbers::{
    bits_are_there, processes_stand_before_wires, tree_wires_are_apart, wires_have_generics,
};
pub use package_levels::PackageLevels;
pub use process::CellProcess;
pub use section_laws::{read_state_tables_fit, read_statements_are_sound};
pub use spelled_names::{ports_are_formed, timing_generics_are_formed};
pub use statement_laws::{read_assignments_are_sound, statements_are_told};
pub use typed_cell::{TypedCell, read_typed_cell};
pub use typed_packages::TypedPackages;
pub use value_laws::{read_values_are_sound, values_are_told};
pub use values::{Values, default_values};
pub use wire::WireDelay;
pub use worths::{level_of, levels_of_packages};
