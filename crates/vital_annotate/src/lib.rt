//! The delays of a design's instances with the entries of SDF files (IEEE 1497; IEEE 1076.4, clause 5): which generics of which
//! instances an entry is for, what becomes of their delays, and what is said of entries that are passed over.
#![tactic(auto)]

mod annotate_error;
mod annotating;
mod annotations;
mod cell_index;
mod delays;
mod entries;
mod how;
mod instances;
mod names;
mod note;
mod parts;
mod path_keys;
mod source;
mod target;

pub use annotate_error::AnnotateError;
pub use annotating::{Annotated, annotate};
pub use note::{Note, NoteWhy};
