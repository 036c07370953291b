//! The lines that are printed, and the reporter that writes them to a sink.
#![tactic(auto)]

mod event_start;
mod fields;
mod held;
mod line;
mod print_error;
mod printer;
mod reporter;
mod said;
mod tally_sink;
mod texts;
mod value;
mod why;

pub use line::{Line, Position};
pub use print_error::PrintError;
pub use printer::Printer;
pub use reporter::{NoMemory, Reporter};
pub use tally_sink::TallySink;
pub use why::{LexicalWhy, LibraryWhy, Limit, NetlistWhy, NoteWhy, SdfWhy, StimulusWhy, UsageWhy};
