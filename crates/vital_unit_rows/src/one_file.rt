//! Views of the first file of a row, which is read as file 7, a netlist.

use super::entity::put_entities;
use super::level0::put_breaches;
use super::reading::{ROOM, read};
use super::split::put_splits;
use super::units::put_units;
use super::upward::put_last_places;
use super::words::Lines;
use std::alloc::{AllocError, Global};
use vital_base::{Place, read_number};
use vital_lex::TextFault;
use vital_row_files::GivenFile;
use vital_vhdl::{Role, UnitError, Units, vhdl_rules};

/// What is told of a file.
#[derive(Clone, Copy)]
pub enum FileView {
    /// Its units, and their nodes.
    Units,
    /// Its entities with their ports.
    Entity,
    /// Where the last node in each value of a constant stands, found upwards.
    Upward,
    /// The breaches of Level 0 in its entities.
    Level0,
    /// The parts of the names of its generics.
    Split,
}

impl FileView {
    /// The view that a word names.
    pub fn named(word: &str) -> Option<FileView> {
        match word {
            "units" => Some(FileView::Units),
            "entity" => Some(FileView::Entity),
            "upward" => Some(FileView::Upward),
            "level0" => Some(FileView::Level0),
            "split" => Some(FileView::Split),
            _ => None,
        }
    }
}

/// How many tokens a file may have: as many as the first word says.
fn room_of(words: &[String]) -> u32 {
    match words {
        [room, ..] => read_number(room.as_bytes())
            .and_then(|room| u32::try_from(room).ok())
            .unwrap_or(ROOM),
        [] => ROOM,
    }
}

/// The lines of a view of the first file, or how it is refused.
pub fn file_lines(
    alloc: Global,
    view: FileView,
    words: &[String],
    files: &[GivenFile],
) -> Result<String, AllocError> {
    let mut out = String::new(alloc);
    let [file, ..] = files else {
        return Ok(out);
    };
    let rules = vhdl_rules(alloc)?;
    match read(alloc, &rules, 7, Role::Net, file, room_of(words)) {
        Ok(units) => put_view(alloc, &mut out, view, &units)?,
        Err(error) => put_refusal(&mut out, error)?,
    }
    Ok(out)
}

fn put_view(alloc: Global, out: Lines<'_>, view: FileView, read: &Units) -> Result<(), AllocError> {
    let units = read.units.as_slice();
    match view {
        FileView::Units => put_units(alloc, out, units),
        FileView::Entity => put_entities(out, read),
        FileView::Upward => put_last_places(alloc, out, units),
        FileView::Level0 => put_breaches(alloc, out, units),
        FileView::Split => put_splits(alloc, out, units),
    }
}

/// How a file is refused: by a token at a line and a column, or by a lexeme or a limit at an offset.
fn put_refusal(out: Lines<'_>, error: UnitError) -> Result<(), AllocError> {
    match error {
        UnitError::Refused { place } => {
            let Place { line, column, .. } = place;
            write!(out, "refused syntax {line} {column}\n")
        }
        UnitError::Lex(TextFault::Fault { offset, .. }) => write!(
            out,
            "refused lexical {offset}\n"
        ),
        UnitError::Lex(TextFault::TooManyTokens { offset }) => {
            write!(out, "refused tokens {offset}\n")
        }
        UnitError::Lex(TextFault::TooDeep { offset }) => write!(out, "refused nesting {offset}\n"),
        UnitError::NoMemory => Err(AllocError),
    }
}
