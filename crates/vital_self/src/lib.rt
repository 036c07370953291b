//! The texts of a run that a seed draws: a library of one cell, a netlist of its instances, and stimuli.
//!
//! All numbers come from one linear congruential generator. Its state is a number of 64 bits, and the seed is the first state.
//! A draw below a limit multiplies the state by 6364136223846793005, adds 1442695040888963407, and keeps the low 64 bits of
//! that; it gives what is left of the state without its low 33 bits when the limit divides it.
#![tactic(auto)]

mod draws;
mod files;
mod library;
mod netlist;
mod stimuli;
mod text;

pub use files::{Texts, texts_of};
