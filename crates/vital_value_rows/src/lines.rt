//! Lines as they are printed.

use super::line_words::{LEXICAL, LIBRARY, LIMITS, NETLIST, NOTES, SDF, STIMULUS, USAGE, named};
use super::words::{Said, level, number, small, word};
use std::alloc::{AllocError, Global};
use vital_base::{Clause, List, MemSink, Name};
use vital_report::{Line, Position, Reporter};

/// What a line says, with its first two words as names.
#[derive(Clone, Copy)]
struct Told<'a> {
    words: &'a [&'a str],
    first: &'a Name,
    second: &'a Name,
}

impl<'a> Told<'a> {
    fn word(&self, place: usize) -> &'a str {
        word(self.words, place)
    }

    /// The second name, unless it is `-`.
    fn arch(&self) -> Option<&'a Name> {
        if self.word(3) == "-" {
            None
        } else {
            Some(self.second)
        }
    }

    /// The place that the last three words tell: a file, a line and a column.
    fn place(&self) -> Option<Position<'a>> {
        let [.., file, line, column] = self.words else {
            return None;
        };
        Some(Position {
            file: file.as_bytes(),
            line: small(line)?,
            column: small(column)?,
        })
    }

    /// The clause whose level and number stand from a word on.
    fn clause(&self, place: usize) -> Option<Clause> {
        let level = self.word(place).parse::<u8>().ok()?;
        let number = self.word(place.wrapping_add(1)).parse::<u8>().ok()?;
        Some(Clause { level, number })
    }
}

/// A line of a simulation.
fn of_simulation<'a>(told: &Told<'a>) -> Option<Line<'a>> {
    let time = number(told.word(2));
    Some(match told.word(1) {
        "version" => Line::Version,
        "init" => Line::Init {
            name: told.first,
            value: level(told.word(3))?,
        },
        "event" => Line::Event {
            time: number(told.word(4))?,
            delta: number(told.word(5))?,
            name: told.first,
            value: level(told.word(3))?,
        },
        "glitch" => Line::Glitch {
            time: number(told.word(4))?,
            delta: number(told.word(5))?,
            path: told.word(2).as_bytes(),
            port: told.word(3).as_bytes(),
        },
        "end" => Line::End { time: time? },
        "self" => Line::SelfHead {
            seed: number(told.word(2))?,
            cells: small(told.word(3))?,
        },
        "events" => Line::Events { count: time? },
        "messages" => Line::Messages { count: time? },
        "delta" => Line::RefusedDelta {
            time: time?,
            limit: number(told.word(3))?,
        },
        _ => return None,
    })
}

/// A line of a cell or of a design.
fn of_units<'a>(told: &Told<'a>) -> Option<Line<'a>> {
    Some(match told.word(1) {
        "level1" => Line::CellLevel1 {
            entity: told.first,
            arch: told.arch(),
        },
        "broken" => Line::CellBroken {
            entity: told.first,
            arch: told.arch(),
            clause: told.clause(4)?,
            at: told.place()?,
        },
        "instance" => Line::Instance {
            path: told.word(2).as_bytes(),
            unit: told.word(3).as_bytes(),
            is_cell: told.word(4) == "cell",
        },
        "signal" => Line::Signal {
            name: told.word(2).as_bytes(),
            is_resolved: told.word(3) == "resolved",
            drivers: number(told.word(4))?,
        },
        "end-of-design" => Line::EndOfDesign,
        _ => return None,
    })
}

/// A refusal of words or of a file.
fn of_files<'a>(told: &Told<'a>) -> Option<Line<'a>> {
    Some(match told.word(1) {
        "usage" => Line::RefusedUsage {
            word: number(told.word(2))?,
            why: named(&USAGE, told.word(3))?,
        },
        "stimulus" => Line::RefusedStimulus {
            why: named(&STIMULUS, told.word(4))?,
            file: told.first,
            line: small(told.word(3))?,
        },
        "lexical" => Line::RefusedLexical {
            why: named(&LEXICAL, told.word(2))?,
            at: told.place()?,
        },
        "syntax" => Line::RefusedSyntax { at: told.place()? },
        _ => return None,
    })
}

/// A line of the entries of an SDF file.
fn of_delays<'a>(told: &Told<'a>) -> Option<Line<'a>> {
    let at = told.place()?;
    Some(match told.word(1) {
        "note" => Line::Note {
            why: named(&NOTES, told.word(2))?,
            at,
        },
        "sdf" => Line::RefusedSdf {
            why: named(&SDF, told.word(2))?,
            at,
        },
        _ => return None,
    })
}

/// A refusal of a library or of a design.
fn of_designs<'a>(told: &Told<'a>) -> Option<Line<'a>> {
    let at = told.place()?;
    Some(match told.word(1) {
        "limit" => Line::RefusedLimit {
            limit: named(&LIMITS, told.word(2))?,
            at,
        },
        "library" => Line::RefusedLibrary {
            why: named(&LIBRARY, told.word(2))?,
            at,
        },
        "netlist" => Line::RefusedNetlist {
            why: named(&NETLIST, told.word(2))?,
            at,
            name: if told.word(3) == "-" {
                None
            } else {
                Some(told.word(3).as_bytes())
            },
        },
        "cell" => Line::RefusedCell {
            clause: told.clause(2)?,
            at,
        },
        _ => return None,
    })
}

/// The line that words tell.
fn line_of<'a>(told: &Told<'a>) -> Option<Line<'a>> {
    of_simulation(told)
        .or_else(|| of_units(told))
        .or_else(|| of_files(told))
        .or_else(|| of_designs(told))
        .or_else(|| of_delays(told))
}

/// A line as it is printed by a flush.
pub fn say(alloc: Global, words: &[&str]) -> Said {
    let first = Name::new(word(words, 2).as_bytes().to_vec(alloc)?);
    let second = Name::new(word(words, 3).as_bytes().to_vec(alloc)?);
    let told = Told {
        words,
        first: &first,
        second: &second,
    };
    match line_of(&told) {
        Some(line) => printed(alloc, &line),
        None => Ok(None),
    }
}

/// What is printed of a line by a flush; and a word more where that failed, or where some was written before.
fn printed(alloc: Global, line: &Line<'_>) -> Said {
    let mut sink = MemSink::new(alloc, 1_000, List::new(Vec::new(alloc)));
    let mut reporter = Reporter::new(alloc)?;
    let is_put = reporter.put(&mut sink, line).is_ok();
    let length = sink.bytes().len();
    let is_flushed = reporter.flush(&mut sink).is_ok();
    let mut text = String::new(alloc);
    text.push_str(std::str::from_utf8(sink.bytes()).unwrap_or("no text\n"))?;
    if !is_put || !is_flushed || length != 0 {
        text.push_str("a fault, or bytes before a flush\n")?;
    }
    Ok(Some(text))
}
