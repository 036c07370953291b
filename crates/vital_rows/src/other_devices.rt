//! Runs of a row over other devices than its own: what they write and their status are the same, or those of a failed write.

use super::program::{PIECE, Ran, run_over};
use std::alloc::{AllocError, Global};
use std::fmt;
use vital_base::Word;
use vital_row_files::{Answer, Device, GivenFile, Row};

/// The status where writing failed.
const WRITE_FAILED: u8 = 11;

/// A device in place of one of a row.
#[derive(Clone, Copy)]
enum Other {
    /// A shelf that gives one byte a read.
    Shelf,
    /// A sink that takes one byte a write.
    Sink,
    /// A sink whose write of this number fails, counted from 1.
    FailingSink(u32),
}

impl fmt::Display for Other {
    fn fmt<W: fmt::Write>(&self, f: &mut fmt::Formatter<W>) -> fmt::Result {
        match self {
            Other::Shelf => f.write_str("a shelf that gives one byte a read"),
            Other::Sink => f.write_str("a sink that takes one byte a write"),
            Other::FailingSink(number) => write!(f, "a sink whose write {number} fails"),
        }
    }
}

/// What is asked of the program.
#[derive(Clone, Copy)]
struct Asked<'a> {
    words: &'a Vec<Word>,
    files: &'a [GivenFile],
    row: &'a Row,
}

/// What a run is to write, and its status.
#[derive(Clone, Copy)]
struct Wanted<'a> {
    bytes: &'a [u8],
    status: u8,
}

/// A device that moves one byte at a call.
fn one_byte(alloc: Global) -> Option<Device> {
    Some(Device {
        piece: 1,
        fails: Vec::new(alloc),
    })
}

/// A device whose call of this number fails.
fn failing(alloc: Global, number: u32) -> Result<Option<Device>, AllocError> {
    Ok(Some(Device {
        piece: PIECE,
        fails: Vec::from_slice(alloc, &[number])?,
    }))
}

/// Runs the program over another device in place of one of the row.
fn run_over_other(alloc: Global, asked: Asked<'_>, other: Other) -> Result<Ran, AllocError> {
    let Asked { words, files, row } = asked;
    match other {
        Other::Shelf => run_over(alloc, words, files, &one_byte(alloc), &row.sink),
        Other::Sink => run_over(alloc, words, files, &row.shelf, &one_byte(alloc)),
        Other::FailingSink(number) => {
            let sink = failing(alloc, number)?;
            run_over(alloc, words, files, &row.shelf, &sink)
        }
    }
}

/// How many bytes the two have in common before they part.
fn common(bytes: &[u8], wanted: &[u8]) -> usize {
    let pairs = bytes.iter().zip(wanted);
    pairs.take_while(|(byte, other)| byte == other).count()
}

/// Runs the program over another device, and puts a line where it writes other bytes than wanted or has another status. The line begins with a word
/// that counts for the row.
fn try_over(
    alloc: Global,
    asked: Asked<'_>,
    other: Other,
    wanted: Wanted<'_>,
    said: &mut String,
) -> Result<(), AllocError> {
    let ran = run_over_other(alloc, asked, other)?;
    let (bytes, status) = (ran.bytes.as_slice(), ran.status);
    if bytes == wanted.bytes && status == wanted.status {
        return Ok(());
    }
    let word = asked.row.only.first().map_or("answer", String::as_str);
    write!(
        said,
        "{word} differs over {other}: wanted {} bytes and status {}, got {} bytes and status {status}, of which the first {} are as wanted\n",
        wanted.bytes.len(),
        wanted.status,
        bytes.len(),
        common(bytes, wanted.bytes)
    )?;
    Ok(())
}

/// Runs the program over sinks of which each write fails in turn, where this is the row's own run. What was written before stands, and no more.
fn try_failing_sinks(
    alloc: Global,
    asked: Asked<'_>,
    own: &Ran,
    said: &mut String,
) -> Result<(), AllocError> {
    let (bytes, status) = (own.bytes.as_slice(), WRITE_FAILED);
    for (number, start) in own.starts.iter().enumerate() {
        let bytes = bytes.get(..*start).unwrap_or(bytes);
        let call = u32::try_from(number.wrapping_add(1)).unwrap_or(u32::MAX);
        let wanted = Wanted { bytes, status };
        try_over(alloc, asked, Other::FailingSink(call), wanted, said)?;
    }
    Ok(())
}

/// Runs the program over other devices where the row names none, where this is the row's own run. Puts a line for each that differs.
fn try_others(
    alloc: Global,
    asked: Asked<'_>,
    own: &Ran,
    said: &mut String,
) -> Result<(), AllocError> {
    let wanted = Wanted {
        bytes: own.bytes.as_slice(),
        status: own.status,
    };
    if asked.row.shelf.is_none() {
        try_over(alloc, asked, Other::Shelf, wanted, said)?;
    }
    if asked.row.sink.is_none() {
        try_over(alloc, asked, Other::Sink, wanted, said)?;
        try_failing_sinks(alloc, asked, own, said)?;
    }
    Ok(())
}

/// Puts lines behind bytes.
fn put_lines(bytes: &mut Vec<u8>, lines: &str) -> Result<(), AllocError> {
    if !lines.is_empty() && bytes.last().is_some_and(|byte| *byte != b'\n') {
        bytes.push(b'\n')?;
    }
    bytes.extend_from_slice(lines.as_bytes())
}

/// What the program writes, and its status, where these are its words and its files. Behind it stands a line for each run over another device that
/// differs.
pub fn answer_of_run(
    alloc: Global,
    words: &Vec<Word>,
    files: &[GivenFile],
    row: &Row,
) -> Result<Answer, AllocError> {
    let own = run_over(alloc, words, files, &row.shelf, &row.sink)?;
    let mut said = String::new(alloc);
    let asked = Asked { words, files, row };
    try_others(alloc, asked, &own, &mut said)?;
    let Ran {
        mut bytes,
        status,
        starts: _,
    } = own;
    put_lines(&mut bytes, said.as_str())?;
    Ok(Answer { bytes, status })
}
