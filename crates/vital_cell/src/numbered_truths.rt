//! Numbered trees of truth values, and times and delays, which are known where a cell is compiled.

ghost use Rattle.std.specs.Prelude.{◌≡◌, true, IfOk};
ghost use Rattle.std.specs.List.{list_all};
ghost use Rattle.vital_cell.specs.Times as typed;
ghost use Rattle.vital_typed_cells.specs.Trees.{is_sound_boolean, is_sound_level};
ghost use Rattle.vital_cell.specs.Scopes.{lent};
ghost use Rattle.vital_cell.specs.Sound.{tests};
ghost use Rattle.vital_cell.specs.StandsFor as spec;
ghost use Rattle.vital_cell.specs.Steps as steps;

use crate::numbered_levels::numbered_level;
use crate::scope::Scope;
use crate::worth::{delay_of, time_of};
use sqlite_items::{Boxed, Items};
use std::alloc::AllocError;
use vital_base::Time;
use vital_machine::TruthTree;
use vital_operands::{BooleanExpr, DelayExpr, LevelExpr, TimeExpr};
use vital_timing::Delay;

/// Whether two levels are the same.
fn same_levels(
    scope: &Scope<'_, '_>,
    left: &LevelExpr,
    right: &LevelExpr,
) -> Result<TruthTree, AllocError>
    requires left { is_sound_level (tests (lent scope.now)) left.now ≡ true }
    requires right { is_sound_level (tests (lent scope.now)) right.now ≡ true }
    ensures { IfOk result (λ numbered. spec.IsSame (lent scope.now) numbered left.now right.now) }
{
    let left = numbered_level(scope, left)?;
    let right = numbered_level(scope, right)?;
    Ok(TruthTree::SameLevels(left, right))
}

/// Whether two levels are not the same.
fn other_levels(
    scope: &Scope<'_, '_>,
    left: &LevelExpr,
    right: &LevelExpr,
) -> Result<TruthTree, AllocError>
    requires left { is_sound_level (tests (lent scope.now)) left.now ≡ true }
    requires right { is_sound_level (tests (lent scope.now)) right.now ≡ true }
    ensures { IfOk result (λ numbered. spec.IsOther (lent scope.now) numbered left.now right.now) }
{
    let left = numbered_level(scope, left)?;
    let right = numbered_level(scope, right)?;
    Ok(TruthTree::OtherLevels(left, right))
}

/// The numbered tree of a truth value.
#[cycle(numbered_truths)]
pub fn numbered_truth(scope: &Scope<'_, '_>, tree: &BooleanExpr) -> Result<TruthTree, AllocError>
    requires { is_sound_boolean (tests (lent scope.now)) tree.now ≡ true }
    ensures { IfOk result (λ numbered. spec.IsTruth (lent scope.now) numbered tree.now) }
{
    match tree {
        BooleanExpr::Literal(truth) => Ok(TruthTree::Literal(*truth)),
        BooleanExpr::Control(control) => Ok(TruthTree::Literal(scope.control(*control))),
        BooleanExpr::SameLevels(left, right) => {
            let tree = same_levels(scope, left, right)?;
            Ok(tree)
        }
        BooleanExpr::OtherLevels(left, right) => {
            let tree = other_levels(scope, left, right)?;
            Ok(tree)
        }
        BooleanExpr::Same(left, right) => {
            let first = boxed_truth(scope, left.get())?;
            let second = boxed_truth(scope, right.get())?;
            Ok(TruthTree::Same(first, second))
        }
        BooleanExpr::Other(left, right) => {
            let first = boxed_truth(scope, left.get())?;
            let second = boxed_truth(scope, right.get())?;
            Ok(TruthTree::Other(first, second))
        }
        BooleanExpr::Not(operand) => Ok(TruthTree::Not(boxed_truth(scope, operand.get())?)),
        BooleanExpr::Logical(operator, operands) => {
            Ok(TruthTree::Logical(*operator, numbered_operands(scope, operands.as_slice())?))
        }
    }
}

/// The same, in a box.
#[cycle(numbered_truths)]
fn boxed_truth(scope: &Scope<'_, '_>, tree: &BooleanExpr) -> Result<Boxed<TruthTree>, AllocError>
    requires { is_sound_boolean (tests (lent scope.now)) tree.now ≡ true }
    ensures { IfOk result (λ numbered. spec.IsTruth (lent scope.now) numbered tree.now) }
{
    Boxed::new(scope.alloc, numbered_truth(scope, tree)?)
}

/// The numbered trees of truth values, in order.
#[cycle(numbered_truths)]
fn numbered_operands(
    scope: &Scope<'_, '_>,
    trees: &[BooleanExpr],
) -> Result<Items<TruthTree>, AllocError>
    requires { list_all (is_sound_boolean (tests (lent scope.now))) trees.now ≡ true }
    ensures { IfOk result (λ numbered. spec.AreTruths (lent scope.now) numbered trees.now) }
{
    let mut numbered = Vec::new(scope.alloc);
    for tree in trees {
        numbered.push(numbered_truth(scope, tree)?)?;
    }
    Ok(Items::from_vec(numbered))
}

/// The time of a delay that has one time; 0 of any other.
fn one_time(delay: Delay) -> Time
    ensures { result ≡ typed.one_time delay }
{
    match delay {
        Delay::One(time) => time,
        _ => 0,
    }
}

/// What a time is, in femtoseconds.
pub fn known_time(scope: &Scope<'_, '_>, tree: &TimeExpr) -> Time
    ensures { result ≡ steps.time_of (lent scope.now) tree.now }
{
    match tree {
        TimeExpr::Literal(time) => *time,
        TimeExpr::Generic(name) => one_time(scope.delay(name.as_slice())),
        TimeExpr::Constant(name) => time_of(scope.worth(name)),
    }
}

/// What a delay is.
pub fn known_delay(scope: &Scope<'_, '_>, tree: &DelayExpr) -> Delay
    ensures { result ≡ steps.delay_of (lent scope.now) tree.now }
{
    match tree {
        DelayExpr::Literal(delay) => *delay,
        DelayExpr::Generic(name) => scope.delay(name.as_slice()),
        DelayExpr::Constant(name) => delay_of(scope.worth(name)),
    }
}
