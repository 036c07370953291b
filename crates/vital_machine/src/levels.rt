//! What trees of levels and vectors are worth. It takes no memory, and time in proportion to the trees.

ghost use Rattle.std.specs.Prelude.{◌≡◌, ◌<◌, [], IfSome, length, map, take};
ghost use Rattle.vital_machine.specs.Seen.{lent};
ghost use Rattle.vital_machine.specs.Trees as spec;
ghost use Rattle.vital_machine.specs.TruthTables.{fitted};
ghost use Rattle.vital_primitives.specs.Operators.{operated as operated'};
ghost use Rattle.vital_primitives.specs.Primitives.{primitive as primitive'};
ghost use Rattle.vital_table.specs.Matches.{first_row};

use crate::elements::Elements;
use crate::seen::Seen;
use crate::trees::{LevelTree, TableTree, VectorTree};
use vital_logic::{Level, not1};
use vital_names::Primitive;
use vital_nodes::Logical;
use vital_primitives::{converted, operated, primitive};

/// The most inputs that a table has.
const MOST_INPUTS: usize = 32;

/// The most inputs that a primitive has.
const MOST_OF_PRIMITIVE: usize = 4;

/// The level that a tree is worth.
#[cycle(levels)]
#[tactic(auto, using(crate::proofs::TreeLemmas::worths))]
pub fn level(tree: &LevelTree, seen: &Seen<'_>) -> Level
    ensures { result ≡ spec.level (lent seen.now) tree.now }
{
    match tree {
        LevelTree::Literal(level) => *level,
        LevelTree::Bit(number) => seen.bit(*number),
        LevelTree::Element(number, offset) => seen.element(*number, *offset),
        LevelTree::Not(operand) => not1(level(operand.get(), seen)),
        LevelTree::Logical(operator, operands) => logical(*operator, operands.as_slice(), seen),
        LevelTree::Primitive(which, inputs) => primitive_of(*which, inputs.as_slice(), seen),
        LevelTree::Conversion(conversion, operand) => {
            converted(*conversion, level(operand.get(), seen))
        }
        LevelTree::FirstResult(call) => {
            let call = call.get();
            call.table.result(row(call, seen), 0)
        }
    }
}

/// The first of some levels with each behind it by an operator; U of none.
#[cycle(levels)]
#[tactic(auto, using(crate::proofs::TreeLemmas::worths))]
fn logical(operator: Logical, operands: &[LevelTree], seen: &Seen<'_>) -> Level
    ensures { result ≡ operated' operator (map (spec.level (lent seen.now)) operands.now) }
{
    let [first, others @ ..] = operands else {
        return Level::U;
    };
    let mut value = level(first, seen);
    for operand in others {
        value = operated(operator, &[value, level(operand, seen)]);
    }
    value
}

/// What a primitive gives for its inputs, of which the first four count.
#[cycle(levels)]
#[tactic(auto, using(crate::proofs::TreeLemmas::worths))]
fn primitive_of(which: Primitive, inputs: &[LevelTree], seen: &Seen<'_>) -> Level
    ensures { result ≡ primitive' which (take 4 (map (spec.level (lent seen.now)) inputs.now)) }
{
    let mut room = [Level::U; MOST_OF_PRIMITIVE];
    let count = inputs.len().min(MOST_OF_PRIMITIVE);
    let levels = &mut room[..count];
    put_levels(inputs, seen, levels);
    primitive(which, levels)
}

/// The number of the row of a table that matches its inputs, where there is one.
#[cycle(levels)]
#[tactic(auto, using(crate::proofs::TreeLemmas::worths))]
fn row(call: &TableTree, seen: &Seen<'_>) -> Option<u32>
    ensures first { result ≡ first_row call.now.table (fitted call.now.table.inputs (spec.vector (lent seen.now) call.now.inputs)) (fitted call.now.table.inputs (spec.vector (lent seen.now) call.now.inputs)) [] }
    ensures there { IfSome result (λ row. row < length call.now.table.rows) }
{
    let mut room = [Level::U; MOST_INPUTS];
    let inputs = &mut room[..call.table.inputs()];
    put_vector(&call.inputs, seen, inputs);
    call.table.row(inputs)
}

/// Puts the levels that trees are worth to places from the first on; U behind them.
#[cycle(levels)]
#[tactic(auto, using(crate::proofs::TreeLemmas::worths))]
fn put_levels(trees: &[LevelTree], seen: &Seen<'_>, places: &mut [Level])
    ensures { places.new ≡ fitted (length places.old) (map (spec.level (lent seen.now)) trees.now) }
{
    for (number, place) in places.iter_mut().enumerate() {
        *place = match trees.get(number) {
            Some(tree) => level(tree, seen),
            None => Level::U,
        };
    }
}

/// Puts the levels of the vector that a tree is worth to places from the first on; U behind them.
#[cycle(levels)]
#[tactic(auto, using(crate::proofs::TreeLemmas::worths))]
pub fn put_vector(tree: &VectorTree, seen: &Seen<'_>, places: &mut [Level])
    ensures { places.new ≡ fitted (length places.old) (spec.vector (lent seen.now) tree.now) }
{
    match tree {
        VectorTree::Variable(number) => match seen.slots.get(*number) {
            Some(slot) => Elements::Held(slot).put(places),
            None => Elements::Nothing.put(places),
        },
        VectorTree::Levels(trees) => put_levels(trees.as_slice(), seen, places),
        VectorTree::Others(tree, count) => {
            Elements::Same(level(tree.get(), seen), *count).put(places);
        }
        VectorTree::Literal(levels) => Elements::Listed(levels.as_slice()).put(places),
        VectorTree::Results(call) => {
            let call = call.get();
            Elements::OfRow(&call.table, row(call, seen)).put(places);
        }
    }
}
