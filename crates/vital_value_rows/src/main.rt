//! Worked rows of the parts below cells and designs: levels, delays, checks, tables, queues, numbers, texts and lines. Each file of rows says in
//! its head what its words mean.
#![tactic(auto)]

mod agendas;
mod checks;
mod delays;
mod devices;
mod glitches;
mod grammars;
mod laws;
mod levels;
mod lexemes;
mod line_words;
mod lines;
mod literals;
mod naturals;
mod primitives;
mod stimuli;
mod system;
mod tables;
mod words;

use std::alloc::{AllocError, Global};
use std::process::ExitCode;
use std::test::Fail;
use vital_row_files::{Answer, Answers, GivenFile, Row, go_over};
use words::{Said, borrowed, word};

/// Answers the words of rows of values.
struct Values;

/// What a view of values says of the words behind its name.
fn of_values(alloc: Global, words: &[&str], files: &[GivenFile]) -> Said {
    match word(words, 0) {
        "levels" | "two" | "one" | "resolve" => levels::say(alloc, words, files),
        "primitive" | "operator" | "convert" => primitives::say(alloc, words),
        "delay" | "select" => delays::say(alloc, words, files),
        "glitch" | "call" | "kept" => glitches::say(alloc, words, files),
        "edges" | "edge" | "check" => checks::say(alloc, words, files),
        "table" | "results" | "input" | "state" => tables::say(alloc, words, files),
        "queue" | "signals" => agendas::say(alloc, words, files),
        "arithmetic" | "difference" | "successor" | "below" => naturals::say(alloc, words),
        "literal" | "type" | "unit" | "digits" => literals::say(alloc, words),
        _ => Ok(None),
    }
}

/// What a view of texts and lines says of the words behind its name.
fn of_texts(alloc: Global, words: &[&str], files: &[GivenFile], row: &Row) -> Said {
    match word(words, 0) {
        "tokens" | "refused" | "byte" | "place" => lexemes::say(alloc, words, files),
        "grammar" => grammars::say(alloc, words),
        "stimuli" => stimuli::say(alloc, files),
        "line" => lines::say(alloc, words),
        _ => devices::say(alloc, words, files, row),
    }
}

impl Answers for Values {
    fn answer(
        alloc: Global,
        words: &[String],
        files: &[GivenFile],
        row: &Row,
    ) -> Result<Answer, AllocError> {
        let words = borrowed(alloc, words)?;
        let said = match of_values(alloc, words.as_slice(), files)? {
            Some(text) => Some(text),
            None => of_texts(alloc, words.as_slice(), files, row)?,
        };
        let status = if said.is_some() { 0 } else { 2 };
        let bytes = said.unwrap_or(String::new(alloc)).into_bytes();
        Ok(Answer { bytes, status })
    }
}

fn main(rt: HostRuntime) -> Result<ExitCode, Fail> {
    system::show(&rt)?;
    Ok(if go_over::<Values>(&rt)? {
        ExitCode::SUCCESS
    } else {
        ExitCode::FAILURE
    })
}
