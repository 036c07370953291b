//! The times that changes take, and the delays that are chosen from paths.

use super::words::{Said, letter, level, lines_of, number, word};
use std::alloc::{AllocError, Global};
use vital_logic::Level;
use vital_path_delay::{Path, calc_delay, select};
use vital_row_files::GivenFile;
use vital_timing::Delay;

/// The levels by their classes: 0, 1, Z, and all others.
const BY_CLASS: [Level; 9] = [
    Level::Zero,
    Level::L,
    Level::One,
    Level::H,
    Level::Z,
    Level::U,
    Level::X,
    Level::W,
    Level::Dash,
];

/// What a view says of delays.
pub fn say(alloc: Global, words: &[&str], files: &[GivenFile]) -> Said {
    match word(words, 0) {
        "delay" => changes(alloc, words),
        _ => selected(alloc, words, files),
    }
}

/// The delay of one, two or six times.
pub fn delay_of(words: &[&str]) -> Option<Delay> {
    match words {
        [time] => Some(Delay::One(number(time)?)),
        [tr01, tr10] => Some(Delay::Two {
            tr01: number(tr01)?,
            tr10: number(tr10)?,
        }),
        [tr01, tr10, tr0z, trz1, tr1z, trz0] => Some(Delay::Six {
            tr01: number(tr01)?,
            tr10: number(tr10)?,
            tr0z: number(tr0z)?,
            trz1: number(trz1)?,
            tr1z: number(tr1z)?,
            trz0: number(trz0)?,
        }),
        _ => None,
    }
}

/// A line of the times that changes from a level take.
fn put_row(text: &mut String, delay: &Delay, old: Level) -> Result<(), AllocError> {
    text.push(letter(old))?;
    text.push(':')?;
    for new in BY_CLASS {
        write!(text, " {}", calc_delay(new, old, delay))?;
    }
    text.push('\n')
}

/// The time that each change takes.
fn changes(alloc: Global, words: &[&str]) -> Said {
    let Some(delay) = delay_of(words.get(1..).unwrap_or(&[])) else {
        return Ok(None);
    };
    let mut text = String::new(alloc);
    for old in BY_CLASS {
        put_row(&mut text, &delay, old)?;
    }
    Ok(Some(text))
}

/// The path of a line: its age, `on` or `off`, and its delay.
pub fn path_of(words: &[&str]) -> Option<Path> {
    let age = number(word(words, 0))?;
    let on = word(words, 1) == "on";
    let delay = delay_of(words.get(2..).unwrap_or(&[]))?;
    Some(Path { age, delay, on })
}

/// The paths of a row, or None where a line is none.
fn paths_of(alloc: Global, files: &[GivenFile]) -> Result<Option<Vec<Path>>, AllocError> {
    let mut paths = Vec::new(alloc);
    for line in lines_of(alloc, files, "paths")?.as_slice() {
        let Some(path) = path_of(line.as_slice()) else {
            return Ok(None);
        };
        paths.push(path)?;
    }
    Ok(Some(paths))
}

/// A change to a level from another one, and the default delay.
fn change_of(words: &[&str]) -> Option<(Level, Level, Delay)> {
    let old = level(word(words, 1))?;
    let new = level(word(words, 2))?;
    let default = delay_of(words.get(3..).unwrap_or(&[]))?;
    Some((old, new, default))
}

/// The delay of a change by paths.
fn selected(alloc: Global, words: &[&str], files: &[GivenFile]) -> Said {
    let Some((old, new, default)) = change_of(words) else {
        return Ok(None);
    };
    let Some(paths) = paths_of(alloc, files)? else {
        return Ok(None);
    };
    let delay = select(paths.as_slice(), new, old, &default);
    let text = format!(in alloc; "{delay}\n")?;
    Ok(Some(text))
}
