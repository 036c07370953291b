//! The answers to the words of rows.

use super::library::put_library;
use super::ranges::put_ranges;
use super::words::{View, view_of};
use std::alloc::{AllocError, Global};
use vital_row_files::{Answer, Answers, GivenFile, Row};

/// What answers.
pub struct Views;

/// What the view that words begin with shows.
fn shown(alloc: Global, words: &[String], files: &[GivenFile]) -> Result<String, AllocError> {
    match view_of(words) {
        Some(View::Range(view)) => put_ranges(alloc, view, words),
        Some(View::Library(view)) => put_library(alloc, view, words, files),
        None => String::from_str(alloc, "no view\n"),
    }
}

impl Answers for Views {
    fn answer(
        alloc: Global,
        words: &[String],
        files: &[GivenFile],
        _row: &Row,
    ) -> Result<Answer, AllocError> {
        Ok(Answer {
            bytes: shown(alloc, words, files)?.into_bytes(),
            status: 0,
        })
    }
}
