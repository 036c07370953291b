//! The texts of a row's files.

use super::answer::GivenFile;
use super::row::{FileText, Repeat, Row, Rows};
use std::alloc::{AllocError, Global};
use std::collections::BTreeMap;

/// Lines by their numbers, as they are written.
type Lines = BTreeMap<String, String>;

/// A text in which some lines are others, from its first line that counts to its last.
fn edited(
    alloc: Global,
    whole: &str,
    file: &FileText,
    lines: Option<&Lines>,
) -> Result<String, AllocError> {
    let mut text = String::new(alloc);
    for (index, line) in whole.split('\n').enumerate() {
        let number = index.wrapping_add(1);
        if file.first.is_some_and(|first| number < first) {
            continue;
        }
        if file.last.is_some_and(|last| last < number) {
            break;
        }
        if number != file.first.unwrap_or(1) {
            text.push_str("\n")?;
        }
        let key = number.to_string(alloc)?;
        let other = lines.and_then(|lines| lines.get(key.as_str()));
        text.push_str(other.map_or(line, String::as_str))?;
    }
    if file.last.is_some() {
        text.push_str("\n")?;
    }
    Ok(text)
}

/// A text as often as it is to stand.
fn repeated(alloc: Global, repeat: &Repeat) -> Result<String, AllocError> {
    let mut all = String::new(alloc);
    for time in 0..repeat.times {
        match repeat.from {
            None => all.push_str(repeat.text.as_str())?,
            Some(from) => {
                let number = from.wrapping_add(time).to_string(alloc)?;
                let one = repeat.text.replace(alloc, "#", number.as_str())?;
                all.push_str(one.as_str())?;
            }
        }
    }
    Ok(all)
}

/// A text in which each mark is what stands for it.
fn without_marks(
    alloc: Global,
    text: String,
    repeats: &BTreeMap<String, Repeat>,
) -> Result<String, AllocError> {
    let mut text = text;
    for (mark, repeat) in repeats {
        let all = repeated(alloc, repeat)?;
        text = text.replace(alloc, mark.as_str(), all.as_str())?;
    }
    Ok(text)
}

/// The bytes whose numbers the characters of a text are. A character above 255 is left out.
fn latin1(alloc: Global, text: &str) -> Result<Vec<u8>, AllocError> {
    let mut bytes = Vec::new(alloc);
    for one in text.chars() {
        if let Ok(byte) = u8::try_from(u32::from(one)) {
            bytes.push(byte)?;
        }
    }
    Ok(bytes)
}

/// The bytes of a file of a row, or None where it is of a text that isn't there.
fn bytes_of(
    alloc: Global,
    rows: &Rows,
    row: &Row,
    name: &str,
    file: &FileText,
) -> Result<Option<Vec<u8>>, AllocError> {
    let whole = match &file.of {
        None => &file.text,
        Some(of) => match rows.texts.get(of.as_str()) {
            None => return Ok(None),
            Some(text) => text,
        },
    };
    let text = edited(alloc, whole.as_str(), file, row.lines.get(name))?;
    let text = without_marks(alloc, text, &row.repeats)?;
    if file.is_latin1 {
        return Ok(Some(latin1(alloc, text.as_str())?));
    }
    Ok(Some(text.into_bytes()))
}

/// Puts a file of a row, and returns whether its text is there.
fn put(
    alloc: Global,
    rows: &Rows,
    row: &Row,
    name: &str,
    file: &FileText,
    files: &mut Vec<GivenFile>,
) -> Result<bool, AllocError> {
    let Some(bytes) = bytes_of(alloc, rows, row, name, file)? else {
        return Ok(false);
    };
    let name = name.to_string(alloc)?;
    files.push(GivenFile { name, bytes })?;
    Ok(true)
}

/// The files of a row, its own before those that rows share; or None where one is of a text that isn't there.
pub fn files_of(
    alloc: Global,
    rows: &Rows,
    row: &Row,
) -> Result<Option<Vec<GivenFile>>, AllocError> {
    let mut files = Vec::new(alloc);
    for (name, file) in &row.files {
        if !put(alloc, rows, row, name.as_str(), file, &mut files)? {
            return Ok(None);
        }
    }
    for (name, file) in &rows.files {
        let is_other = row.files.contains_key(name.as_str());
        if !is_other && !put(alloc, rows, row, name.as_str(), file, &mut files)? {
            return Ok(None);
        }
    }
    Ok(Some(files))
}
