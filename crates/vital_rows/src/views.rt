//! Views: what the parts below the program make of words, in lines.

mod jobs;
mod words;

use self::jobs::job_lines;
use std::alloc::{AllocError, Global};
use vital_base::Word;

/// The lines of the view that the first word names, if it names one.
pub fn view(alloc: Global, words: &[Word]) -> Result<Option<String>, AllocError> {
    let [first, others @ ..] = words else {
        return Ok(None);
    };
    match first.as_slice() {
        b"job" => Ok(Some(job_lines(alloc, others)?)),
        _ => Ok(None),
    }
}
