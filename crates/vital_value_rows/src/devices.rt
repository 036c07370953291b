//! Shelves and sinks that move so many bytes a call, and whose calls fail where a row says so.

use super::words::{Said, small, word};
use std::alloc::{AllocError, Global};
use vital_base::{
    Bytes, List, LoadError, MemFile, MemShelf, MemSink, Name, Sink, Word, WriteFault, read_file,
    write_all,
};
use vital_logic::Level;
use vital_report::{Line, Printer, Reporter};
use vital_row_files::{Device, GivenFile, Row};

/// What a view says of devices.
pub fn say(alloc: Global, words: &[&str], files: &[GivenFile], row: &Row) -> Said {
    match word(words, 0) {
        "load" => load(alloc, files, row, word(words, 1)),
        "write" => write(alloc, row, word(words, 1)),
        "reporter" => reporter(alloc, row),
        "printer" => printer(alloc, row),
        "long" => long(alloc, row, word(words, 1)),
        "many" => many(alloc, row, word(words, 1)),
        "list" => list(alloc),
        "holds" => holds(alloc, word(words, 1).as_bytes()),
        _ => Ok(None),
    }
}

/// How many bytes a call of a device moves, and the numbers of the calls that fail.
fn device_of(alloc: Global, device: &Option<Device>) -> Result<(u32, List<u32>), AllocError> {
    match device {
        Some(device) => {
            let fails = device.fails.as_slice().to_vec(alloc)?;
            Ok((device.piece, List::new(fails)))
        }
        None => Ok((1_000, List::new(Vec::new(alloc)))),
    }
}

fn sink_of(alloc: Global, row: &Row) -> Result<MemSink, AllocError> {
    let (piece, fails) = device_of(alloc, &row.sink)?;
    Ok(MemSink::new(alloc, piece, fails))
}

/// A shelf of the files of a row. What stands behind a blank is no part of a file's name, so that two can have one name.
fn shelf_of(alloc: Global, files: &[GivenFile], row: &Row) -> Result<MemShelf, AllocError> {
    let mut all = Vec::new(alloc);
    for file in files {
        let name = file.name.split(' ').next().unwrap_or("");
        all.push(MemFile {
            name: Name::new(name.as_bytes().to_vec(alloc)?),
            bytes: Bytes::new(file.bytes.as_slice().to_vec(alloc)?),
        })?;
    }
    let (piece, fails) = device_of(alloc, &row.shelf)?;
    Ok(MemShelf::new(List::new(all), piece.max(1), fails))
}

/// How long a file is that is read, and its text where that is short; or why it isn't read.
fn load(alloc: Global, files: &[GivenFile], row: &Row, name: &str) -> Said {
    let mut shelf = shelf_of(alloc, files, row)?;
    let name = Name::new(name.as_bytes().to_vec(alloc)?);
    let mut text = String::new(alloc);
    match read_file(alloc, &mut shelf, &name) {
        Ok(bytes) => put_file(&mut text, bytes.as_slice())?,
        Err(LoadError::ReadFault) => text.push_str("read fault\n")?,
        Err(LoadError::TooLong) => text.push_str("too long\n")?,
        Err(LoadError::NoMemory) => return Err(AllocError),
    }
    Ok(Some(text))
}

fn put_file(text: &mut String, bytes: &[u8]) -> Result<(), AllocError> {
    write!(text, "{} bytes\n", bytes.len())?;
    if bytes.len() < 100 {
        text.push_str(std::str::from_utf8(bytes).unwrap_or("?"))?;
    }
    Ok(())
}

/// Says what came of a call, and what a sink got behind it.
fn put_answer(text: &mut String, answer: Result<(), WriteFault>) -> Result<(), AllocError> {
    text.push_str(if answer.is_ok() {
        "written\n"
    } else {
        "fault\n"
    })
}

/// What a sink got.
fn put_got(text: &mut String, sink: &MemSink) -> Result<(), AllocError> {
    text.push_str(std::str::from_utf8(sink.bytes()).unwrap_or("?"))
}

/// Writes a text at once.
fn write(alloc: Global, row: &Row, written: &str) -> Said {
    let mut sink = sink_of(alloc, row)?;
    let mut text = String::new(alloc);
    put_answer(&mut text, write_all(&mut sink, written.as_bytes()))?;
    put_got(&mut text, &sink)?;
    Ok(Some(text))
}

/// Puts two lines, the first and the last of a run, and flushes.
fn reporter(alloc: Global, row: &Row) -> Said {
    let mut sink = sink_of(alloc, row)?;
    let mut reporter = Reporter::new(alloc)?;
    let mut text = String::new(alloc);
    put_answer(&mut text, reporter.put(&mut sink, &Line::Version))?;
    put_answer(&mut text, reporter.put(&mut sink, &Line::End { time: 1 }))?;
    put_answer(&mut text, reporter.flush(&mut sink))?;
    put_got(&mut text, &sink)?;
    Ok(Some(text))
}

/// Prints two lines, of which the first that fails ends it.
fn print_two<K: Sink>(reporter: Reporter, sink: &mut K) -> Result<(), WriteFault> {
    let mut printer = Printer::new(reporter, sink);
    printer.print(&Line::Version)?;
    printer.print(&Line::End { time: 1 })?;
    printer.flush()?;
    let _ = printer.into_sink();
    Ok(())
}

fn printer(alloc: Global, row: &Row) -> Said {
    let mut sink = sink_of(alloc, row)?;
    let mut text = String::new(alloc);
    put_answer(&mut text, print_two(Reporter::new(alloc)?, &mut sink))?;
    put_got(&mut text, &sink)?;
    Ok(Some(text))
}

/// How many bytes of a line of a signal are written before a flush where its name has so many.
fn long(alloc: Global, row: &Row, length: &str) -> Said {
    let Some(length) = small(length) else {
        return Ok(None);
    };
    let name = &Name::new(vec![in alloc; b'x'; length as usize]?);
    let value = Level::One;
    let mut sink = sink_of(alloc, row)?;
    let _ = Reporter::new(alloc)?.put(&mut sink, &Line::Init { name, value });
    let text = format!(in alloc; "{} bytes\n", sink.bytes().len())?;
    Ok(Some(text))
}

/// What comes of the last of so many first lines of a run that are put, and how many bytes are written before a flush.
fn many(alloc: Global, row: &Row, count: &str) -> Said {
    let Some(count) = small(count) else {
        return Ok(None);
    };
    let mut sink = sink_of(alloc, row)?;
    let mut reporter = Reporter::new(alloc)?;
    let mut last = Ok(());
    for _ in 0..count {
        last = reporter.put(&mut sink, &Line::Version);
    }
    let mut text = String::new(alloc);
    put_answer(&mut text, last)?;
    write!(text, "{} bytes\n", sink.bytes().len())?;
    Ok(Some(text))
}

/// A list of 1 and 2, as it holds them and as it gives them back.
fn list(alloc: Global) -> Said {
    let mut text = String::new(alloc);
    let list = List::new(vec![in alloc; 1u32, 2]?);
    for number in list.as_slice() {
        write!(text, "holds {number}\n")?;
    }
    for number in list.into_vec().as_slice() {
        write!(text, "gives {number}\n")?;
    }
    Ok(Some(text))
}

/// Says bytes behind a word.
fn put_bytes(text: &mut String, said: &str, bytes: &[u8]) -> Result<(), AllocError> {
    let bytes = std::str::from_utf8(bytes).unwrap_or("?");
    write!(text, "{said} {bytes}\n")?;
    Ok(())
}

/// The bytes that a word, a content and a name hold and give back.
fn holds(alloc: Global, bytes: &[u8]) -> Said {
    let mut text = String::new(alloc);
    let word = Word::new(bytes.to_vec(alloc)?);
    put_bytes(&mut text, "holds", word.as_slice())?;
    put_bytes(&mut text, "word", word.into_vec().as_slice())?;
    let content = Bytes::new(bytes.to_vec(alloc)?);
    put_bytes(&mut text, "content", content.into_vec().as_slice())?;
    let name = Name::new(bytes.to_vec(alloc)?);
    put_bytes(&mut text, "name", name.into_vec().as_slice())?;
    Ok(Some(text))
}
