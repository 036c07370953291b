//! The typed trees of a cell as numbered trees and steps, in which no name stands, and a cell as a program of such steps, which is made
//! once from its typed tree and stands for its statements (IEEE 1076.4; IEEE 1076-1993, 9.2).
#![tactic(auto)]

mod cell_laws;
mod cells;
mod constants;
mod known;
mod laws;
mod name_numbers;
mod numbered_levels;
mod numbered_steps;
mod numbered_truths;
mod processes;
mod scope;
mod slots;
mod variable_numbers;
mod worth;

pub use cells::compile;
