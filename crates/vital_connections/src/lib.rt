//! What the bits of the ports of an instance are associated with (IEEE 1076-1993, 1.1.1.2 and 12.6.1), as spans of bits that stand side by
//! side: exactly, however long ports and signals are.
#![tactic(auto)]

mod connections;
mod extent;
mod laws;
mod object;
mod own;
mod run;
mod span;
mod spans;

pub use connections::Connections;
pub use extent::{first_of, index_at, length_of};
pub use laws::associations_are_apart;
pub use object::{Object, objects_of_signals};
pub use run::{Run, put_run, whole_run};
pub use span::{Connected, Span};
