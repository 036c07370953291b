//! What the functionality of a process does. It takes no memory.

ghost use Rattle.std.specs.Prelude.{◌≡◌, ◌<◌, length, map};
ghost use Rattle.std.specs.List.{enumerate_from, slice_index_or};
ghost use Rattle.std.specs.Option.{ForSome};
ghost use Rattle.vital_machine.specs.Machine as spec;
ghost use Rattle.vital_machine.specs.Seen.{lent, seen_of};
ghost use Rattle.vital_machine.specs.Slots.{with_element, with_level, with_levels};
ghost use Rattle.vital_machine.specs.Trees as trees;
ghost use Rattle.vital_machine.specs.TruthTables.{fitted};
ghost use Rattle.vital_primitives.specs.Operators.{first};
ghost use Rattle.vital_logic.specs.declared.level.Level.TheVariants as level;
ghost use Rattle.vital_table.specs.Results.{result_at};

use crate::input::Input;
use crate::levels::{level, put_vector};
use crate::seen::Seen;
use crate::slot::Slot;
use crate::state_table::StateTable;
use crate::steps::{FunctionalStep, Place, StateTableStep};
use crate::trees::VectorTree;
use vital_logic::Level;

/// The most elements that a vector variable has.
const MOST_ELEMENTS: usize = 256;

/// The most columns that a table has.
const MOST_COLUMNS: usize = 32;

/// Puts a level to the variable of a number, if there is one.
pub(crate) fn put_level(number: usize, level: Level, slots: &mut [Slot])
    ensures { slots.new ≡ spec.changed number (with_level level) slots.old }
{
    if number < slots.len() {
        slots[number].put(level);
    }
}

/// Puts a level to an element of the variable of a number, if there is one.
fn put_element(number: usize, offset: usize, level: Level, slots: &mut [Slot])
    ensures { slots.new ≡ spec.changed number (with_element offset level) slots.old }
{
    if number < slots.len() {
        slots[number].put_element(offset, level);
    }
}

/// Puts levels to the variable of a number, if there is one.
fn put_levels(number: usize, levels: &[Level], slots: &mut [Slot])
    ensures { slots.new ≡ spec.changed number (with_levels levels.now) slots.old }
{
    if number < slots.len() {
        slots[number].put_levels(levels);
    }
}

/// The first of some levels; U where there is none.
fn first_of(levels: &[Level]) -> Level
    ensures { result ≡ first levels.now }
{
    match levels.first() {
        Some(level) => *level,
        None => Level::U,
    }
}

/// Puts levels to a place: the first to a variable of one level or to an element, and all to a vector.
fn put(place: Place, levels: &[Level], slots: &mut [Slot])
    ensures { slots.new ≡ spec.put place levels.now slots.old }
{
    match place {
        Place::Level(number) => put_level(number, first_of(levels), slots),
        Place::Element(number, offset) => put_element(number, offset, first_of(levels), slots),
        Place::Vector(number) => put_levels(number, levels, slots),
    }
}

/// The level of a number among those that a place holds; U where there is none.
fn held_at(place: Place, seen: &Seen<'_>, number: usize) -> Level
    ensures { result ≡ slice_index_or (spec.held_by place (lent seen.now).slots) number level.U }
{
    match place {
        Place::Level(variable) | Place::Vector(variable) => seen.element(variable, number),
        Place::Element(variable, offset) => {
            if number == 0 {
                seen.element(variable, offset)
            } else {
                Level::U
            }
        }
    }
}

/// Puts the levels that a place holds to others from the first on; U behind them.
fn put_held(place: Place, seen: &Seen<'_>, levels: &mut [Level])
    ensures { levels.new ≡ fitted (length levels.old) (spec.held_by place (lent seen.now).slots) }
{
    for (number, level) in levels.iter_mut().enumerate() {
        *level = held_at(place, seen, number);
    }
}

/// Puts what a row of a table gives in place of what its results were before, which are all.
fn put_results(table: &StateTable, row: Option<u32>, results: &mut [Level])
    requires row { ForSome row (λ row. row < length table.now.rows) }
    requires results { length results.old ≡ table.now.results }
    ensures { results.new ≡ map (λ r. result_at table.now row r.0 r.1) (enumerate_from 0 results.old) }
{
    for (number, level) in results.iter_mut().enumerate() {
        *level = table.result(row, number, *level);
    }
}

/// Assigns a vector. All its elements are taken before the first is assigned.
fn assign_vector(place: Place, tree: &VectorTree, inputs: &[Input], slots: &mut [Slot])
    ensures { slots.new ≡ spec.put place (fitted 256 (trees.vector (seen_of inputs.now slots.old) tree.now)) slots.old }
{
    let mut levels = [Level::U; MOST_ELEMENTS];
    put_vector(tree, &Seen { inputs, slots }, &mut levels);
    put(place, &levels, slots);
}

/// Calls VitalStateTable: puts the results of the first row that matches, and then keeps the inputs.
fn look_up(call: &StateTableStep, inputs: &[Input], slots: &mut [Slot])
    ensures { slots.new ≡ spec.state_table (seen_of inputs.now slots.old) call.now }
{
    let table = &call.table;
    let mut new = [Level::U; MOST_COLUMNS];
    let mut old = [Level::U; MOST_COLUMNS];
    let mut results = [Level::U; MOST_COLUMNS];
    let new = &mut new[..table.inputs()];
    let old = &mut old[..table.inputs()];
    let results = &mut results[..table.results()];
    let seen = Seen { inputs, slots };
    put_vector(&call.data_in, &seen, new);
    put_held(Place::Vector(call.previous_data_in), &seen, old);
    put_held(call.result, &seen, results);
    let row = table.row(old, new, &results[..table.states()]);
    put_results(table, row, results);
    put(call.result, results, slots);
    put_levels(call.previous_data_in, new, slots);
}

/// Executes a statement.
pub fn execute(step: &FunctionalStep, inputs: &[Input], slots: &mut [Slot])
    ensures { slots.new ≡ spec.functional_step inputs.now slots.old step.now }
{
    match step {
        FunctionalStep::Level(place, tree) => {
            let value = level(tree, &Seen { inputs, slots });
            put(*place, &[value], slots);
        }
        FunctionalStep::Vector(place, tree) => assign_vector(*place, tree, inputs, slots),
        FunctionalStep::StateTable(call) => look_up(call, inputs, slots),
    }
}
