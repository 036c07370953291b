//! The pending transactions of all drivers, and when they become present values.
#![tactic(auto)]

mod agenda;
mod due;
mod entry;
mod queue_agenda;
mod stay;
mod transaction;
mod unlink;
mod walk;

pub use agenda::Agenda;
pub use due::Due;
pub use entry::{Entry, Queue};
pub use queue_agenda::QueueAgenda;
pub use transaction::Transaction;
