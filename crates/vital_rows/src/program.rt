//! A run of the program over devices in memory.

use super::noted_shelf::NotedShelf;
use super::noted_sink::NotedSink;
use std::alloc::{AllocError, Global};
use vital_base::{Bytes, List, MemFile, MemShelf, MemSink, Name, Word};
use vital_row_files::{Answer, Device, GivenFile, Row};
use vital_run::run;

/// How many bytes a call of a device moves where nothing is said of it.
pub const PIECE: u32 = 65_536;

/// The words of a row, and behind them the lines of its file `words`, if it has one.
pub fn words_of(
    alloc: Global,
    words: &[String],
    files: &[GivenFile],
) -> Result<Vec<Word>, AllocError> {
    let mut all = Vec::new(alloc);
    for word in words {
        all.push(Word::new(Vec::from_slice(alloc, word.as_bytes())?))?;
    }
    for file in files {
        if file.name.as_str() == "words" {
            put_lines(alloc, &mut all, file.bytes.as_slice())?;
        }
    }
    Ok(all)
}

/// Puts each line of a text that isn't empty as a word.
fn put_lines(alloc: Global, words: &mut Vec<Word>, text: &[u8]) -> Result<(), AllocError> {
    for line in text.split(|byte| *byte == b'\n') {
        if !line.is_empty() {
            words.push(Word::new(Vec::from_slice(alloc, line)?))?;
        }
    }
    Ok(())
}

/// The files of a row, in memory.
fn files_of(alloc: Global, files: &[GivenFile]) -> Result<List<MemFile>, AllocError> {
    let mut all = Vec::new(alloc);
    for file in files {
        let name = Name::new(Vec::from_slice(alloc, file.name.as_bytes())?);
        let bytes = Bytes::new(Vec::from_slice(alloc, file.bytes.as_slice())?);
        all.push(MemFile { name, bytes })?;
    }
    Ok(List::new(all))
}

fn piece_of(device: &Option<Device>) -> u32 {
    match device {
        Some(device) => device.piece,
        None => PIECE,
    }
}

/// The numbers of the calls of a device that fail.
fn fails_of(alloc: Global, device: &Option<Device>) -> Result<List<u32>, AllocError> {
    match device {
        Some(device) => Ok(List::new(Vec::from_slice(alloc, device.fails.as_slice())?)),
        None => Ok(List::new(Vec::new(alloc))),
    }
}

/// A shelf of the files of a row, in memory.
fn shelf_of(
    alloc: Global,
    files: &[GivenFile],
    device: &Option<Device>,
) -> Result<MemShelf, AllocError> {
    let files = files_of(alloc, files)?;
    let piece = piece_of(device).max(1);
    Ok(MemShelf::new(files, piece, fails_of(alloc, device)?))
}

/// A sink in memory.
pub fn sink_of(alloc: Global, device: &Option<Device>) -> Result<MemSink, AllocError> {
    let fails = fails_of(alloc, device)?;
    Ok(MemSink::new(alloc, piece_of(device), fails))
}

/// What a run wrote, its status, and for each of its writes how many bytes there were before it.
#[derive(Drop)]
pub struct Ran {
    pub bytes: Vec<u8>,
    pub status: u8,
    pub starts: Vec<usize>,
}

/// Runs the program with these words and these files over a shelf and a sink that behave so.
pub fn run_over(
    alloc: Global,
    words: &Vec<Word>,
    files: &[GivenFile],
    shelf: &Option<Device>,
    sink: &Option<Device>,
) -> Result<Ran, AllocError> {
    let mut shelf = shelf_of(alloc, files, shelf)?;
    let mut noted = NotedSink {
        sink: sink_of(alloc, sink)?,
        starts: Vec::new(alloc),
    };
    let status = run(alloc, words, &mut shelf, &mut noted);
    let NotedSink { sink, starts } = noted;
    Ok(Ran {
        bytes: Vec::from_slice(alloc, sink.bytes())?,
        status: status.number(),
        starts,
    })
}

/// A line for each name that the program opens, or tries to, in order, and its status.
pub fn opened_by_run(
    alloc: Global,
    words: &Vec<Word>,
    files: &[GivenFile],
    row: &Row,
) -> Result<Answer, AllocError> {
    let mut shelf = NotedShelf {
        shelf: shelf_of(alloc, files, &row.shelf)?,
        alloc,
        names: Vec::new(alloc),
    };
    let mut sink = sink_of(alloc, &row.sink)?;
    let status = run(alloc, words, &mut shelf, &mut sink);
    let mut bytes = Vec::new(alloc);
    for name in shelf.names.as_slice() {
        bytes.extend_from_slice(name.as_slice())?;
        bytes.push(b'\n')?;
    }
    Ok(Answer {
        bytes,
        status: status.number(),
    })
}
