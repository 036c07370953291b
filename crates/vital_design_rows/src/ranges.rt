//! Ranges and indices as they are written, and what is looked at of them.

use super::connections::put_connected;
use super::words::{RangeView, value};
use std::alloc::{AllocError, Global};
use vital_base::Name;
use vital_connections::{first_of, index_at, length_of};
use vital_naturals::Natural;
use vital_nodes::{Direction, LiteralBounds};
use vital_structure::{Part, Shape};

/// Two bounds and the direction between them. An index has it twice; and where nothing is written the bounds are empty.
#[derive(Drop)]
pub struct Written {
    left: Name,
    direction: Direction,
    right: Name,
}

/// A literal.
fn literal(alloc: Global, text: &str) -> Result<Name, AllocError> {
    Ok(Name::new(Vec::from_slice(alloc, text.as_bytes())?))
}

impl Written {
    /// The range or index that stands behind a key.
    pub fn of(alloc: Global, words: &[String], key: &str) -> Result<Written, AllocError> {
        let mut parts = value(words, key).split(' ');
        let left = parts.next().unwrap_or("");
        let direction = match parts.next() {
            Some("downto") => Direction::Downto,
            _ => Direction::To,
        };
        let right = parts.next().unwrap_or(left);
        Ok(Written {
            left: literal(alloc, left)?,
            direction,
            right: literal(alloc, right)?,
        })
    }

    fn bounds(&self) -> LiteralBounds<'_> {
        LiteralBounds {
            left: &self.left,
            direction: self.direction,
            right: &self.right,
        }
    }

    /// A vector of the range, or one bit where nothing is written.
    pub fn shape(&self) -> Shape<'_> {
        if self.left.as_slice().is_empty() {
            Shape::Scalar
        } else {
            Shape::Vector(self.bounds())
        }
    }

    /// The part that is the index.
    fn element(&self) -> Part<'_> {
        Part::Element(&self.left)
    }

    /// The part that is the range: one index where its bounds are the same, and all where nothing is written.
    pub fn part(&self) -> Part<'_> {
        if self.left.as_slice().is_empty() {
            Part::Whole
        } else if self.left.as_slice() == self.right.as_slice() {
            self.element()
        } else {
            Part::Slice(self.bounds())
        }
    }
}

/// Puts a number.
pub fn put_numeral(alloc: Global, number: &Natural, text: &mut String) -> Result<(), AllocError> {
    for digit in &number.numeral(alloc)? {
        text.push(char::from(*digit))?;
    }
    Ok(())
}

/// Puts a number, or `none`.
fn put_number(
    alloc: Global,
    number: &Option<Natural>,
    text: &mut String,
) -> Result<(), AllocError> {
    match number {
        Some(number) => put_numeral(alloc, number, text),
        None => text.push_str("none"),
    }
}

/// What a view shows of the ranges that words write.
pub fn put_ranges(alloc: Global, view: RangeView, words: &[String]) -> Result<String, AllocError> {
    let mut text = String::new(alloc);
    let range = Written::of(alloc, words, "range=")?;
    match view {
        RangeView::Length => put_numeral(alloc, &length_of(alloc, range.shape())?, &mut text)?,
        RangeView::Distance => {
            let index = Written::of(alloc, words, "index=")?;
            let distance = first_of(alloc, range.shape(), index.element())?;
            put_number(alloc, &distance, &mut text)?;
        }
        RangeView::Index => {
            let distance = Natural::of_literal(alloc, value(words, "distance=").as_bytes())?;
            let index = index_at(alloc, range.shape(), &distance)?;
            put_number(alloc, &index, &mut text)?;
        }
        RangeView::Connections => put_connected(alloc, words, &mut text)?,
    }
    text.push('\n')?;
    Ok(text)
}
