//! Worked rows of files as they are read: their units with their nodes, entities, what Level 0 says of them, and libraries. The first word of a row is a
//! view.
#![tactic(auto)]

mod describe;
mod describe_expressions;
mod entity;
mod level0;
mod libraries;
mod one_file;
mod reading;
mod split;
mod units;
mod upward;
mod words;

use self::libraries::library_lines;
use self::one_file::{FileView, file_lines};
use std::alloc::{AllocError, Global};
use std::process::ExitCode;
use std::test::Fail;
use vital_row_files::{Answer, Answers, GivenFile, Row, go_over};

/// What answers the rows: the views.
struct Views;

/// The lines of the view that the first word names.
fn view(alloc: Global, words: &[String], files: &[GivenFile]) -> Result<String, AllocError> {
    let [first, others @ ..] = words else {
        return Ok(String::new(alloc));
    };
    match FileView::named(first.as_str()) {
        Some(view) => file_lines(alloc, view, others, files),
        None => library_lines(alloc, others, files),
    }
}

impl Answers for Views {
    fn answer(
        alloc: Global,
        words: &[String],
        files: &[GivenFile],
        _row: &Row,
    ) -> Result<Answer, AllocError> {
        Ok(Answer {
            bytes: view(alloc, words, files)?.into_bytes(),
            status: 0,
        })
    }
}

fn main(rt: HostRuntime) -> Result<ExitCode, Fail> {
    Ok(if go_over::<Views>(&rt)? {
        ExitCode::SUCCESS
    } else {
        ExitCode::FAILURE
    })
}
