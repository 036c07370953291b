//! Natural numbers of any size.

use super::words::{Said, perhaps, small, word};
use std::alloc::{AllocError, Global};
use std::cmp::Ordering;
use vital_naturals::Natural;

/// The number that a literal writes.
fn natural(alloc: Global, words: &[&str], place: usize) -> Result<Natural, AllocError> {
    Natural::of_literal(alloc, word(words, place).as_bytes())
}

/// What a view says of numbers.
pub fn say(alloc: Global, words: &[&str]) -> Said {
    let first = natural(alloc, words, 1)?;
    match word(words, 0) {
        "arithmetic" => arithmetic(alloc, &first, &natural(alloc, words, 2)?),
        "difference" => {
            let left = first.minus(alloc, &natural(alloc, words, 2)?)?;
            difference(alloc, &left, &natural(alloc, words, 3)?)
        }
        "successor" => successor(alloc, &first),
        _ => {
            let left = first.minus(alloc, &natural(alloc, words, 2)?)?;
            below(alloc, &left, word(words, 3))
        }
    }
}

/// Says a number behind a word.
fn put(text: &mut String, alloc: Global, said: &str, number: &Natural) -> Result<(), AllocError> {
    let numeral = number.numeral(alloc)?;
    let numeral = std::str::from_utf8(numeral.as_slice()).unwrap_or("?");
    write!(text, "{said} {numeral}\n")?;
    Ok(())
}

/// Says how a number compares with another one.
fn put_order(text: &mut String, first: &Natural, second: &Natural) -> Result<(), AllocError> {
    text.push_str(match first.compare(second) {
        Ordering::Less => "less\n",
        Ordering::Equal => "equal\n",
        Ordering::Greater => "greater\n",
    })
}

/// The sum of two numbers, how much greater the first one is, and how they compare.
fn arithmetic(alloc: Global, first: &Natural, second: &Natural) -> Said {
    let mut text = String::new(alloc);
    put(&mut text, alloc, "sum", &first.plus(alloc, second)?)?;
    put(&mut text, alloc, "difference", &first.minus(alloc, second)?)?;
    put_order(&mut text, first, second)?;
    Ok(Some(text))
}

/// How a difference compares with another number, and the sum of this and of the difference.
fn difference(alloc: Global, left: &Natural, other: &Natural) -> Said {
    let mut text = String::new(alloc);
    put_order(&mut text, left, other)?;
    put(&mut text, alloc, "sum", &other.plus(alloc, left)?)?;
    Ok(Some(text))
}

/// The number behind a number.
fn successor(alloc: Global, number: &Natural) -> Said {
    let behind = number.copy(alloc)?.successor(alloc)?;
    let mut text = String::new(alloc);
    let same = Natural::zero(alloc).plus(alloc, &behind)?;
    put(&mut text, alloc, "successor", &same)?;
    Ok(Some(text))
}

/// A difference where it is below a count.
fn below(alloc: Global, left: &Natural, count: &str) -> Said {
    let Some(count) = small(count) else {
        return Ok(None);
    };
    let found = left.below(count as usize);
    perhaps(alloc, found.map(|number| number as u64))
}
