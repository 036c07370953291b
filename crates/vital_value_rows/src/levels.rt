//! The nine levels, and the tables of their operators.

use super::words::{Said, bytes_of, letter, levels, word};
use std::alloc::{AllocError, Global};
use vital_logic::{
    Level, and2, from_byte, not1, or2, resolve, resolve2, to_ux01, to_x01, to_x01z, xor2,
};
use vital_row_files::GivenFile;

/// The levels in the order of the standard.
pub const LEVELS: [Level; 9] = [
    Level::U,
    Level::X,
    Level::Zero,
    Level::One,
    Level::Z,
    Level::W,
    Level::L,
    Level::H,
    Level::Dash,
];

/// What a view says of levels.
pub fn say(alloc: Global, words: &[&str], files: &[GivenFile]) -> Said {
    match word(words, 0) {
        "levels" => read(alloc, bytes_of(files, "bytes")),
        "two" => table(alloc, word(words, 1)),
        "one" => column(alloc, word(words, 1)),
        _ => resolved(alloc, words),
    }
}

/// For each byte the level that it writes, by its name and as it is printed, or `none`.
fn read(alloc: Global, bytes: &[u8]) -> Said {
    let mut text = String::new(alloc);
    for byte in bytes {
        match from_byte(*byte) {
            Some(level) => write!(text, "{level:?} {}\n", letter(level))?,
            None => text.push_str("none\n")?,
        }
    }
    Ok(Some(text))
}

/// What an operator gives for two levels.
fn two(operator: &str, a: Level, b: Level) -> Option<Level> {
    match operator {
        "resolve2" => Some(resolve2(a, b)),
        "and2" => Some(and2(a, b)),
        "or2" => Some(or2(a, b)),
        "xor2" => Some(xor2(a, b)),
        _ => None,
    }
}

/// What an operator gives for one level.
fn one(operator: &str, a: Level) -> Option<Level> {
    match operator {
        "not1" => Some(not1(a)),
        "to_x01" => Some(to_x01(a)),
        "to_x01z" => Some(to_x01z(a)),
        "to_ux01" => Some(to_ux01(a)),
        _ => None,
    }
}

/// A line of what an operator gives for a first level with each second one.
fn put_row(text: &mut String, operator: &str, a: Level) -> Result<(), AllocError> {
    for b in LEVELS {
        text.push(two(operator, a, b).map_or('?', letter))?;
    }
    text.push('\n')
}

/// The table of an operator between two levels.
fn table(alloc: Global, operator: &str) -> Said {
    let mut text = String::new(alloc);
    for a in LEVELS {
        put_row(&mut text, operator, a)?;
    }
    Ok(Some(text))
}

/// What an operator gives for each level.
fn column(alloc: Global, operator: &str) -> Said {
    let mut text = String::new(alloc);
    for a in LEVELS {
        text.push(one(operator, a).map_or('?', letter))?;
    }
    text.push('\n')?;
    Ok(Some(text))
}

/// For each list of levels what drivers with these values give together.
fn resolved(alloc: Global, words: &[&str]) -> Said {
    let mut text = String::new(alloc);
    for printed in words.iter().skip(1) {
        let levels = levels(alloc, printed)?;
        if !levels.is_empty() {
            let level = letter(resolve(levels.as_slice()));
            write!(text, "{printed} {level}\n")?;
        }
    }
    Ok(Some(text))
}
