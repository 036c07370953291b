//! Which instances of cells are alike.

ghost use Rattle.std.specs.Prelude.{◌≡◌, ◌<◌, IfOk, IsTrue, length, map};
ghost use Rattle.vital_kernel.specs.Alike.{AreTwins, IsTwin};

use crate::counts::added;
use crate::placed::Placed;
use std::alloc::{AllocError, Global};
use vital_timing::Delay;
use vital_typed_cells::Values;

/// Whether two delays are the same.
fn is_same(one: Delay, other: Delay) -> bool
    ensures { IsTrue result → one ≡ other }
{
    one == other
}

/// Whether delays are the same.
fn are_same(some: &[Delay], others: &[Delay]) -> bool
    ensures { IsTrue result → some.now ≡ others.now }
{
    if some.len() != others.len() {
        return false;
    }
    for k in 0..some.len() {
        if !is_same(some[k], others[k]) {
            return false;
        }
    }
    true
}

/// Whether two instances have the same cell and the same delays.
fn are_alike(one: Placed<'_>, other: Placed<'_>, some: &Values, others: &Values) -> bool
    ensures { IsTrue result → (one.entry.kind ≡ other.entry.kind) × (some.now ≡ others.now) }
{
    one.kind == other.kind && are_same(some.as_slice(), others.as_slice())
}

/// The number of the first instance of a cell so far. Where there is none, that of this one is kept.
fn first_of(firsts: &mut Vec<Option<usize>>, kind: usize, own: usize) -> usize {
    if kind >= firsts.len() {
        return own;
    }
    match firsts[kind] {
        Some(first) => first,
        None => {
            firsts[kind] = Some(own);
            own
        }
    }
}

/// The number of the first instance of its cell if it is alike to the one of this number, or else this number.
fn alike_to(placed: &[Placed<'_>], values: &[&Values], first: usize, own: usize) -> usize
    requires there { own < length placed.now }
    requires values { length values.now ≡ length placed.now }
    ensures { IsTwin (map (λ p. p.kind) placed.now) (map (λ v. v.now) values.now) own result }
{
    if first < own && are_alike(placed[first], placed[own], values[first], values[own]) {
        first
    } else {
        own
    }
}

/// For each instance the number of one that is alike to it, where there are so many cells. It takes time in proportion to the instances, their
/// delays and the cells.
pub fn alike_of(
    alloc: Global,
    cells: usize,
    placed: &[Placed<'_>],
    values: &[&Values],
) -> Result<Vec<u32>, AllocError>
    requires { length values.now ≡ length placed.now }
    ensures { IfOk result (λ alike. AreTwins (map (λ p. p.kind) placed.now) (map (λ v. v.now) values.now) (length placed.now) alike.items) }
{
    let mut firsts: Vec<Option<usize>> = vec![in alloc; None; cells]?;
    let mut alike = Vec::new(alloc);
    for own in 0..placed.len() {
        let first = first_of(&mut firsts, placed[own].kind, own);
        alike.push(added(0, alike_to(placed, values, first, own))?)?;
    }
    Ok(alike)
}
