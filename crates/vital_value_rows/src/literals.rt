//! Times that literals, units and digits write, and the types of delays.

use super::delays::delay_of;
use super::words::{Said, number, perhaps, word};
use std::alloc::Global;
use vital_base::{TimeUnit, read_number};
use vital_timing::UnitOfTime;

/// What a view says of times.
pub fn say(alloc: Global, words: &[&str]) -> Said {
    match word(words, 0) {
        "literal" => perhaps(alloc, time_of(word(words, 1), word(words, 2))),
        "unit" => perhaps(alloc, time_in(word(words, 1), word(words, 2))),
        "digits" => perhaps(alloc, read_number(word(words, 1).as_bytes())),
        _ => delay_type(alloc, words),
    }
}

/// The time of a literal, a number before a unit.
fn time_of(number: &str, unit: &str) -> Option<u64> {
    let unit = UnitOfTime::named(unit.as_bytes())?;
    unit.literal_time(number.as_bytes())
}

/// The time of so many of a unit of stimuli.
fn time_in(unit: &str, count: &str) -> Option<u64> {
    let unit = TimeUnit::named(unit.as_bytes())?;
    unit.time(number(count)?)
}

/// The type of a delay, and how many times a delay of it has.
fn delay_type(alloc: Global, words: &[&str]) -> Said {
    let Some(delay) = delay_of(words.get(1..).unwrap_or(&[])) else {
        return Ok(None);
    };
    let delay_type = delay.delay_type();
    let text = format!(in alloc; "{delay_type:?} {}\n", delay_type.time_count())?;
    Ok(Some(text))
}
