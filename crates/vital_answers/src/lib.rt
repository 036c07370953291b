//! What the program answers, up to a design: its exit statuses, refusals and their lines, and the stages of a job that load and read files, judge the
//! cells of a library, and print the tree of a design, with the definitions of what each of these answers.
#![tactic(auto)]

mod cells;
mod judging;
mod lines;
mod loading;
mod netlist_refusal;
mod reading;
mod refusal;
mod status;
mod tree;

pub use cells::check_cells;
pub use lines::{end_with, refuse_long};
pub use loading::{NotLoaded, Source, load_files};
pub use netlist_refusal::refuse_design;
pub use reading::{ReadFile, ReadFiles, Unread, read_files};
pub use refusal::{Refusal, library_refusal, position_of, refuse_files, refuse_words};
pub use status::Status;
pub use tree::print_design;
