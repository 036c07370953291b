//! What reading a VHDL file gives, beside what its grammar says (IEEE 1076-1993, clauses 1, 4 and 9). The generics and ports of an entity, and
//! what an architecture and its processes declare, have identifiers for names and stand in the order of the text, each before the next one;
//! what a process declares stands behind what its architecture declares, and each name in its statements begins before the next one, and
//! behind all that is declared there. What blocks and processes declare stands in the order of the text too. Identifiers that are declared
//! together, also in packages, have one class, one subtype and one value, and the last of them is marked. So it is of each unit that
//! `read_units` reads, and of each cell of a library.
#![tactic(auto)]

mod laws;

pub use laws::{cells_are_as_read, units_are_as_read};
