//! How long ports and signals are, and how far their bits are from the left, as numbers of any size.

ghost use Rattle.std.specs.Prelude.{◌≡◌, ◌&&◌, nat_le, IfOk};
ghost use Rattle.vital_declarations.specs.Numbers.{length_between, length_of as length_of', number as number', offset_between, offset_of as offset_of', range_of};
ghost use Rattle.vital_connections.specs.Objects as objects;
ghost use Rattle.vital_nodes.specs.declared.expr.Direction.TheVariants.{To, Downto};
ghost use Rattle.vital_structure.specs.Shapes as spec;
ghost use Rattle.vital_nodes.specs.Bounds.{shown};

use std::alloc::{AllocError, Global};
use vital_base::Name;
use vital_naturals::Natural;
use vital_nodes::{Direction, LiteralBounds};
use vital_structure::{Part, Shape};

/// The number that a literal writes.
fn number(alloc: Global, literal: &Name) -> Result<Natural, AllocError>
    ensures { IfOk result (λ n. n ≡ number' literal.now) }
{
    Natural::of_literal(alloc, literal.as_slice())
}

/// Whether a number is between two others, which are between themselves.
fn is_within(number: &Natural, least: &Natural, greatest: &Natural) -> bool
    ensures { result ≡ (nat_le least.now number.now && nat_le number.now greatest.now) }
{
    !number.is_less(least) && !greatest.is_less(number)
}

/// How many numbers there are from the least to the greatest, with both. There is none where they stand the other way round.
fn count(alloc: Global, least: &Name, greatest: &Name) -> Result<Natural, AllocError>
    ensures { IfOk result (λ n. n ≡ length_between To (number' least.now) (number' greatest.now)) }
{
    let behind = number(alloc, greatest)?.successor(alloc)?;
    behind.minus(alloc, &number(alloc, least)?)
}

/// How many numbers are in a range.
fn length_of_range(alloc: Global, bounds: LiteralBounds<'_>) -> Result<Natural, AllocError>
    ensures { IfOk result (λ n. n ≡ length_of' (range_of (shown bounds.entry))) }
{
    match bounds.direction {
        Direction::To => count(alloc, bounds.left, bounds.right),
        Direction::Downto => count(alloc, bounds.right, bounds.left),
    }
}

/// How many bits a port, a signal or a part of one has (IEEE 1076-1993, 3.2.1.1). A null range has none.
pub fn length_of(alloc: Global, shape: Shape<'_>) -> Result<Natural, AllocError>
    ensures { IfOk result (λ n. n ≡ spec.bits_of (spec.lent shape.entry)) }
{
    match shape {
        Shape::Scalar => Natural::zero(alloc).successor(alloc),
        Shape::Vector(bounds) => length_of_range(alloc, bounds),
    }
}

/// How far a number is from the least one, if it is between that and the greatest.
fn distance_up(
    alloc: Global,
    number: &Natural,
    least: &Natural,
    greatest: &Natural,
) -> Result<Option<Natural>, AllocError>
    ensures { IfOk result (λ offset. offset ≡ offset_between To least.now greatest.now number.now) }
{
    if is_within(number, least, greatest) {
        Ok(Some(number.minus(alloc, least)?))
    } else {
        Ok(None)
    }
}

/// How far a number is from the greatest one, if it is between that and the least.
fn distance_down(
    alloc: Global,
    number: &Natural,
    least: &Natural,
    greatest: &Natural,
) -> Result<Option<Natural>, AllocError>
    ensures { IfOk result (λ offset. offset ≡ offset_between Downto greatest.now least.now number.now) }
{
    if is_within(number, least, greatest) {
        Ok(Some(greatest.minus(alloc, number)?))
    } else {
        Ok(None)
    }
}

/// How far an index is from the left bound of a range, if it is in the range.
fn offset_in_range(
    alloc: Global,
    bounds: LiteralBounds<'_>,
    index: &Name,
) -> Result<Option<Natural>, AllocError>
    ensures { IfOk result (λ offset. offset ≡ offset_of' (range_of (shown bounds.entry)) (number' index.now)) }
{
    let left = number(alloc, bounds.left)?;
    let right = number(alloc, bounds.right)?;
    let index = number(alloc, index)?;
    match bounds.direction {
        Direction::To => distance_up(alloc, &index, &left, &right),
        Direction::Downto => distance_down(alloc, &index, &right, &left),
    }
}

/// How far an index is from the left, if it is in the range. One bit has no index.
fn offset_in(alloc: Global, shape: Shape<'_>, index: &Name) -> Result<Option<Natural>, AllocError>
    ensures { IfOk result (λ offset. offset ≡ spec.offset_in (spec.lent shape.entry) (number' index.now)) }
{
    match shape {
        Shape::Scalar => Ok(None),
        Shape::Vector(bounds) => offset_in_range(alloc, bounds, index),
    }
}

/// How far the first bit of a part is from the left, if the part begins in the range (IEEE 1076-1993, 6.4 and 6.5).
pub fn first_of(
    alloc: Global,
    shape: Shape<'_>,
    part: Part<'_>,
) -> Result<Option<Natural>, AllocError>
    ensures { IfOk result (λ first. first ≡ spec.first_of (spec.lent shape.entry) (spec.lent_part part.entry)) }
{
    match part {
        Part::Whole => Ok(Some(Natural::zero(alloc))),
        Part::Element(index) => offset_in(alloc, shape, index),
        Part::Slice(slice) => offset_in(alloc, shape, slice.left),
    }
}

/// The number that is so far from the left bound of a range.
fn index_from(
    alloc: Global,
    bounds: LiteralBounds<'_>,
    offset: &Natural,
) -> Result<Natural, AllocError>
    ensures { IfOk result (λ n. n ≡ objects.index_from (range_of (shown bounds.entry)).direction (number' bounds.entry.left.now) offset.now) }
{
    let left = number(alloc, bounds.left)?;
    match bounds.direction {
        Direction::To => left.plus(alloc, offset),
        Direction::Downto => left.minus(alloc, offset),
    }
}

/// The index of the bit that is so far from the left (IEEE 1076-1993, 3.2.1.1). One bit has none.
pub fn index_at(
    alloc: Global,
    shape: Shape<'_>,
    offset: &Natural,
) -> Result<Option<Natural>, AllocError>
    ensures { IfOk result (λ index. index ≡ objects.index_at (spec.lent shape.entry) offset.now) }
{
    match shape {
        Shape::Scalar => Ok(None),
        Shape::Vector(bounds) => Ok(Some(index_from(alloc, bounds, offset)?)),
    }
}
