//! Going over the rows of a file.

use super::answer::{Answer, Answers};
use super::row::{Row, Rows};
use super::texts::files_of;
use std::alloc::{AllocError, Global};
use std::test::Fail;
use toml::from_str;

/// What came of the rows of a file: how many there are, how many passed, and what is said of the others.
#[derive(Drop)]
pub struct Passing {
    pub rows: usize,
    pub passed: usize,
    pub said: String,
}

/// Whether a line counts for a row.
fn counts(row: &Row, line: &str) -> bool {
    row.only.is_empty() || row.only.iter().any(|word| line.starts_with(word.as_str()))
}

/// The bytes of an answer that count for a row.
fn counted(alloc: Global, row: &Row, bytes: Vec<u8>) -> Result<Vec<u8>, AllocError> {
    if row.only.is_empty() {
        return Ok(bytes);
    }
    let mut found = Vec::new(alloc);
    for line in bytes.split_inclusive(|byte| *byte == b'\n') {
        if let Ok(text) = std::str::from_utf8(line) {
            if counts(row, text) {
                found.extend_from_slice(line)?;
            }
        }
    }
    Ok(found)
}

/// What a row says is written.
fn wanted(alloc: Global, row: &Row) -> Result<String, AllocError> {
    let mut text = String::new(alloc);
    for line in &row.gives {
        text.push_str(line.as_str())?;
        text.push_str("\n")?;
    }
    text.push_str(row.cut.as_str())?;
    Ok(text)
}

/// Says what a row got and what it wanted.
fn say(
    said: &mut String,
    number: usize,
    answer: &Answer,
    wanted: &str,
    status: u8,
) -> Result<(), AllocError> {
    let got = std::str::from_utf8(answer.bytes.as_slice()).unwrap_or("(no UTF-8)\n");
    write!(
        said,
        "row {number}: wanted status {status}\n{wanted}got status {}\n{got}",
        answer.status
    )?;
    Ok(())
}

/// Whether a row passes; what is said of it where it doesn't.
fn is_passed<A: Answers>(
    alloc: Global,
    rows: &Rows,
    number: usize,
    row: &Row,
    said: &mut String,
) -> Result<bool, AllocError> {
    let Some(files) = files_of(alloc, rows, row)? else {
        write!(said, "row {number}: a file is of no text\n")?;
        return Ok(false);
    };
    let words = if row.words.is_empty() {
        &rows.words
    } else {
        &row.words
    };
    let Answer { bytes, status } = A::answer(alloc, words.as_slice(), files.as_slice(), row)?;
    let answer = Answer {
        bytes: counted(alloc, row, bytes)?,
        status,
    };
    let wanted = wanted(alloc, row)?;
    let is_same = answer.bytes.as_slice() == wanted.as_bytes() && status == row.status;
    if !is_same {
        say(said, number, &answer, wanted.as_str(), row.status)?;
    }
    Ok(is_same)
}

/// Goes over the rows of a file, each of which `A` answers.
fn pass_rows<A: Answers>(alloc: Global, rows: &Rows) -> Result<Passing, AllocError> {
    let (mut passed, mut said) = (0usize, String::new(alloc));
    for (index, row) in rows.rows.iter().enumerate() {
        if is_passed::<A>(alloc, rows, index.wrapping_add(1), row, &mut said)? {
            passed = passed.wrapping_add(1);
        }
    }
    Ok(Passing {
        rows: rows.rows.len(),
        passed,
        said,
    })
}

/// Goes over the rows that a text in TOML holds, each of which `A` answers.
pub fn pass<A: Answers>(alloc: Global, text: &str) -> Result<Passing, Fail> {
    let rows: Rows = from_str(alloc, text)?;
    Ok(pass_rows::<A>(alloc, &rows)?)
}
