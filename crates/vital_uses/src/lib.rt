//! The names that stand in a cell, each at its site, with what they mean there, and the clauses of Level 1 of VITAL (IEEE 1076.4)
//! that speak of single names: L1.8, that what a process reads is in its sensitivity list, and L1.16, that each name means something.
#![tactic(auto)]

mod apart;
mod asked;
mod cell_uses;
mod names_at;
mod nodes;
mod parts;
mod process_uses;
mod reads;
mod sited;
mod statements;
mod types;
mod undeclared;
mod unread;

pub use apart::{asked_apart, nodes_apart};
pub use asked::{Asked, identifier_of_node};
pub use cell_uses::CellUses;
pub use names_at::{FirstPlaces, NameAt, first_places};
pub use parts::put_asked_of_subtype;
pub use process_uses::ProcessUses;
pub use sited::{SitedNode, own_site};
pub use statements::CellStatements;
