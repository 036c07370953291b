//! The form of a file of rows.

use super::devices::Device;
use serde::Deserialize;
use std::collections::BTreeMap;

/// A file of rows. What its rows share stands before them: the words, the texts of files, and texts that rows begin with.
#[derive(Drop, Deserialize)]
pub struct Rows {
    /// The words of each row that has none.
    #[serde(default)]
    pub words: Vec<String>,
    /// The files of each row, by their names; a row may have others of the same name in their place.
    #[serde(default)]
    pub files: BTreeMap<String, FileText>,
    /// Texts by name, for `of`.
    #[serde(default)]
    pub texts: BTreeMap<String, String>,
    pub rows: Vec<Row>,
}

/// What is asked and what is answered.
#[derive(Drop, Deserialize)]
pub struct Row {
    /// The words: the first is a command.
    #[serde(default)]
    pub words: Vec<String>,
    #[serde(default)]
    pub files: BTreeMap<String, FileText>,
    /// By the name of a file and the number of a line, from 1: the text that stands in its place.
    #[serde(default)]
    pub lines: BTreeMap<String, BTreeMap<String, String>>,
    /// By a mark: what stands wherever the mark stands in a file of the row.
    #[serde(default)]
    pub repeats: BTreeMap<String, Repeat>,
    #[serde(default)]
    pub shelf: Option<Device>,
    #[serde(default)]
    pub sink: Option<Device>,
    /// Where it isn't empty, only lines of the answer that begin with one of these words count.
    #[serde(default)]
    pub only: Vec<String>,
    /// The lines of the answer, without their LF.
    pub gives: Vec<String>,
    /// What the answer ends with behind its last LF.
    #[serde(default)]
    pub cut: String,
    #[serde(default)]
    pub status: u8,
}

/// The text of a file: its own, or some lines of one of the texts that rows share.
#[derive(Drop, Deserialize)]
pub struct FileText {
    #[serde(default)]
    pub text: String,
    /// The name of a text.
    #[serde(default)]
    pub of: Option<String>,
    /// The first and the last line of that text that the file has, from 1; absent, its first or its last.
    #[serde(default)]
    pub first: Option<usize>,
    #[serde(default)]
    pub last: Option<usize>,
    /// Whether each character stands for the byte of its number, and not for its bytes in UTF-8.
    #[serde(default)]
    pub is_latin1: bool,
}

/// A text so many times. Where `from` is there, each `#` in it is the number of the time, counted from there.
#[derive(Drop, Deserialize)]
pub struct Repeat {
    pub text: String,
    pub times: u32,
    #[serde(default)]
    pub from: Option<u32>,
}
