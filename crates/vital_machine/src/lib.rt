//! The processes of a cell as numbered steps, in which no name stands, and what they do when they are activated (IEEE 1076.4; IEEE 1076-1993,
//! 9.2).
#![tactic(auto)]

mod activation;
mod checks;
mod effect;
mod effects;
mod elements;
mod executed;
mod functionality;
mod input;
mod inputs;
mod levels;
mod path_delays;
mod program;
mod seen;
mod slot;
mod state_table;
mod steps;
mod store;
mod trees;
mod truth_table;
mod truths;

pub use activation::activate;
pub use effect::Effect;
pub use effects::Effects;
pub use input::Input;
pub use inputs::Inputs;
pub use levels::{level, put_vector};
pub use program::{Process, Program};
pub use seen::Seen;
pub use slot::Slot;
pub use state_table::StateTable;
pub use steps::{
    CheckKindStep, CheckStep, Executed, FunctionalStep, PathDelayStep, PathStep, Place,
    ProcessSteps, RecoveryStep, ReferenceStep, StateTableStep, WireStep,
};
pub use store::Store;
pub use trees::{LevelTree, TableTree, TruthTree, VectorTree};
pub use truth_table::TruthTable;
pub use truths::truth;
