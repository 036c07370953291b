//! What trees of truth values are worth. It takes no memory, and time in proportion to the trees.

ghost use Rattle.std.specs.Prelude.{◌≡◌, false, map, unwrap_or};
ghost use Rattle.std.specs.List.{reduce};
ghost use Rattle.vital_machine.specs.Seen.{lent};
ghost use Rattle.vital_machine.specs.Trees as spec;
ghost use Rattle.vital_primitives.specs.Operators.{same_level as same_level', truth2 as truth2'};

use crate::levels::level;
use crate::seen::Seen;
use crate::trees::{LevelTree, TruthTree};
use vital_logic::{Level, to_byte};
use vital_nodes::Logical;

/// Whether two levels are the same.
fn same_level(a: Level, b: Level) -> bool
    ensures { result ≡ same_level' a b }
{
    to_byte(a) == to_byte(b)
}

/// Whether the levels of two trees are the same.
fn are_same(left: &LevelTree, right: &LevelTree, seen: &Seen<'_>) -> bool
    ensures { result ≡ same_level' (spec.level (lent seen.now) left.now) (spec.level (lent seen.now) right.now) }
{
    same_level(level(left, seen), level(right, seen))
}

/// A logical operator between two truth values (IEEE 1076-1993, 7.2.1).
fn truth2(operator: Logical, a: bool, b: bool) -> bool
    ensures { result ≡ truth2' operator a b }
{
    match operator {
        Logical::And => a && b,
        Logical::Or => a || b,
        Logical::Xor => a != b,
        Logical::Xnor => a == b,
        Logical::Nand => !(a && b),
        Logical::Nor => !(a || b),
    }
}

/// The truth value that a tree is worth.
#[cycle(truths)]
#[tactic(auto, using(crate::proofs::TreeLemmas::truths))]
pub fn truth(tree: &TruthTree, seen: &Seen<'_>) -> bool
    ensures { result ≡ spec.truth (lent seen.now) tree.now }
{
    match tree {
        TruthTree::Literal(truth) => *truth,
        TruthTree::SameLevels(left, right) => are_same(left, right, seen),
        TruthTree::OtherLevels(left, right) => !are_same(left, right, seen),
        TruthTree::Same(left, right) => truth(left.get(), seen) == truth(right.get(), seen),
        TruthTree::Other(left, right) => truth(left.get(), seen) != truth(right.get(), seen),
        TruthTree::Not(operand) => !truth(operand.get(), seen),
        TruthTree::Logical(operator, operands) => logical(*operator, operands.as_slice(), seen),
    }
}

/// The first of some truth values with each behind it by an operator; false of none.
#[cycle(truths)]
#[tactic(auto, using(crate::proofs::TreeLemmas::truths))]
fn logical(operator: Logical, operands: &[TruthTree], seen: &Seen<'_>) -> bool
    ensures { result ≡ unwrap_or (reduce (truth2' operator) (map (spec.truth (lent seen.now)) operands.now)) false }
{
    let [first, others @ ..] = operands else {
        return false;
    };
    let mut value = truth(first, seen);
    for operand in others {
        value = truth2(operator, value, truth(operand, seen));
    }
    value
}
