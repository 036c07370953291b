//! The edge symbols of IEEE 1076.4, and the sets of changes between levels that they stand for.
#![tactic(auto)]

mod edge_set;

pub use edge_set::{EdgeSet, edges_of};
