//! The words of rows, and of the lines of their files.

use std::alloc::{AllocError, Global};
use vital_logic::{Level, from_byte, to_byte};
use vital_row_files::GivenFile;

/// What a view says; None where it doesn't know what its words mean.
pub type Said = Result<Option<String>, AllocError>;

/// The words of a row, borrowed.
pub fn borrowed<'a>(alloc: Global, words: &'a [String]) -> Result<Vec<&'a str>, AllocError> {
    let mut all = Vec::new(alloc);
    for word in words {
        all.push(word.as_str())?;
    }
    Ok(all)
}

/// The word at a place, or an empty one where there is none.
pub fn word<'a>(words: &[&'a str], place: usize) -> &'a str {
    match words.get(place) {
        Some(word) => word,
        None => "",
    }
}

/// The number that a word writes.
pub fn number(word: &str) -> Option<u64> {
    word.parse::<u64>().ok()
}

/// The same of numbers that fit 32 bits.
pub fn small(word: &str) -> Option<u32> {
    word.parse::<u32>().ok()
}

/// The level that a word of one letter writes.
pub fn level(word: &str) -> Option<Level> {
    match word.as_bytes() {
        [byte] => from_byte(*byte),
        _ => None,
    }
}

/// The levels that are printed so; `none` stands for none.
pub fn levels(alloc: Global, printed: &str) -> Result<Vec<Level>, AllocError> {
    let mut levels = Vec::new(alloc);
    if printed == "none" {
        return Ok(levels);
    }
    for byte in printed.as_bytes() {
        if let Some(level) = from_byte(*byte) {
            levels.push(level)?;
        }
    }
    Ok(levels)
}

/// The letter of a level.
pub fn letter(level: Level) -> char {
    char::from(to_byte(level))
}

/// The bytes of a file of a row, or none where it has no such file.
pub fn bytes_of<'a>(files: &'a [GivenFile], name: &str) -> &'a [u8] {
    match files.iter().find(|file| file.name.as_str() == name) {
        Some(file) => file.bytes.as_slice(),
        None => &[],
    }
}

/// The words of a line, which are parted by blanks.
fn words_of<'a>(alloc: Global, line: &'a str) -> Result<Vec<&'a str>, AllocError> {
    let mut words = Vec::new(alloc);
    for word in line.split(' ') {
        if !word.is_empty() {
            words.push(word)?;
        }
    }
    Ok(words)
}

/// The words of each line of a file of a row, but for empty lines.
pub fn lines_of<'a>(
    alloc: Global,
    files: &'a [GivenFile],
    name: &str,
) -> Result<Vec<Vec<&'a str>>, AllocError> {
    let mut lines = Vec::new(alloc);
    let text = std::str::from_utf8(bytes_of(files, name)).unwrap_or("");
    for line in text.split('\n') {
        let words = words_of(alloc, line)?;
        if !words.is_empty() {
            lines.push(words)?;
        }
    }
    Ok(lines)
}

/// A text of one line.
pub fn line(alloc: Global, text: &str) -> Said {
    let line = format!(in alloc; "{text}\n")?;
    Ok(Some(line))
}

/// A line with a number, or with `none`.
pub fn perhaps(alloc: Global, number: Option<u64>) -> Said {
    match number {
        Some(number) => {
            let line = format!(in alloc; "{number}\n")?;
            Ok(Some(line))
        }
        None => line(alloc, "none"),
    }
}
