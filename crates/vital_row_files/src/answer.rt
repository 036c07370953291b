//! What a row gives to those who answer, and what they answer.

use super::row::Row;
use std::alloc::{AllocError, Global};

/// A file of a row.
#[derive(Drop)]
pub struct GivenFile {
    pub name: String,
    pub bytes: Vec<u8>,
}

/// What was written, and the status.
#[derive(Drop)]
pub struct Answer {
    pub bytes: Vec<u8>,
    pub status: u8,
}

/// What answers the words of rows.
pub trait Answers {
    /// The answer to these words with these files, in order of their names; the row says how its devices behave.
    fn answer(
        alloc: Global,
        words: &[String],
        files: &[GivenFile],
        row: &Row,
    ) -> Result<Answer, AllocError>;
}
