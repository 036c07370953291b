//! Numbered trees of levels and vectors.

ghost use Rattle.std.specs.Prelude.{◌≡◌, ℕ, true, IfOk, IsTrue};
ghost use Rattle.std.specs.List.{list_all};
ghost use Rattle.vital_expr.specs.Vectors as vectors;
ghost use Rattle.vital_operands.specs.declared.tree.LevelExpr.TheVariants as level;
ghost use Rattle.vital_operands.specs.declared.tree.VectorExpr.TheVariants as vector;
ghost use Rattle.vital_typed_cells.specs.Trees.{is_sound_level, vector_worth};
ghost use Rattle.vital_cell.specs.Scopes.{lent};
ghost use Rattle.vital_cell.specs.Sound.{has_table, rows_named, tests};
ghost use Rattle.vital_cell.specs.StandsFor as spec;

use crate::scope::Scope;
use crate::worth::{level_of, rows_of};
use sqlite_items::{Boxed, Items};
use std::alloc::AllocError;
use vital_base::Name;
use vital_logic::Level;
use vital_machine::{LevelTree, TableTree, TruthTable, VectorTree};
use vital_operands::{ConstantName, LevelExpr, TruthTableCall, VectorExpr};
use vital_table::Table;

/// The value of a signal.
fn signal(scope: &Scope<'_, '_>, name: &Name) -> LevelTree
    ensures { spec.IsLevel (lent scope.now) result (level.Signal name.now) }
{
    match scope.bits.number(name.as_slice()) {
        Some(number) => LevelTree::Bit(number),
        None => LevelTree::Literal(Level::U),
    }
}

/// The level at a number of places behind the left end of a variable.
fn element(scope: &Scope<'_, '_>, name: &Name, offset: usize) -> LevelTree
    ensures { spec.IsLevel (lent scope.now) result (level.Element name.now offset) }
{
    match scope.variables.number(name.as_slice()) {
        Some(number) => LevelTree::Element(number, offset),
        None => LevelTree::Literal(Level::U),
    }
}

/// The level of a variable of one level.
fn variable(scope: &Scope<'_, '_>, name: &Name) -> LevelTree
    ensures { spec.IsLevel (lent scope.now) result (level.Variable name.now) }
{
    element(scope, name, 0)
}

/// The level that a constant is worth.
fn constant(scope: &Scope<'_, '_>, name: &ConstantName) -> LevelTree
    ensures { spec.IsLevel (lent scope.now) result (level.Constant name.now) }
{
    LevelTree::Literal(level_of(scope.worth(name)))
}

/// The levels of a variable.
fn whole(scope: &Scope<'_, '_>, name: &Name) -> Result<VectorTree, AllocError>
    ensures { IfOk result (λ tree. (n : ℕ) → spec.IsVector (lent scope.now) tree (vector.Variable name.now n)) }
{
    match scope.variables.number(name.as_slice()) {
        Some(number) => Ok(VectorTree::Variable(number)),
        None => Ok(VectorTree::Literal(Items::new(scope.alloc))),
    }
}

/// How many elements a vector has.
pub fn length_of(vector: &VectorExpr) -> usize
    ensures { result ≡ vectors.length_of vector.now }
{
    match vector {
        VectorExpr::Variable(_, length)
        | VectorExpr::Others(_, length)
        | VectorExpr::TruthTable(_, length) => *length,
        VectorExpr::Levels(levels) => levels.len(),
        VectorExpr::Literal(levels) => levels.len(),
    }
}

/// A table with so many inputs and results.
fn truth_table(
    scope: &Scope<'_, '_>,
    name: &ConstantName,
    inputs: usize,
    results: usize,
) -> Result<TruthTable, AllocError>
    requires { IsTrue (has_table (lent scope.now) name.now inputs results) }
    ensures { IfOk result (λ table. table ≡ record { inputs = inputs; states = 0; results = results; rows = rows_named (lent scope.now) name.now }) }
{
    let table = Table {
        inputs: inputs as u32,
        states: 0,
        results: results as u32,
        rows: rows_of(scope.worth(name)),
    };
    TruthTable::new(scope.alloc, &table)
}

/// The numbered tree of a level.
#[cycle(numbered_levels)]
pub fn numbered_level(scope: &Scope<'_, '_>, tree: &LevelExpr) -> Result<LevelTree, AllocError>
    requires { is_sound_level (tests (lent scope.now)) tree.now ≡ true }
    ensures { IfOk result (λ numbered. spec.IsLevel (lent scope.now) numbered tree.now) }
{
    match tree {
        LevelExpr::Literal(level) => Ok(LevelTree::Literal(*level)),
        LevelExpr::Signal(name) => Ok(signal(scope, name)),
        LevelExpr::Variable(name) => Ok(variable(scope, name)),
        LevelExpr::Element(name, offset) => Ok(element(scope, name, *offset)),
        LevelExpr::Constant(name) => Ok(constant(scope, name)),
        LevelExpr::Not(operand) => Ok(LevelTree::Not(boxed_level(scope, operand.get())?)),
        LevelExpr::Logical(operator, operands) => {
            Ok(LevelTree::Logical(*operator, numbered_levels(scope, operands.as_slice())?))
        }
        LevelExpr::Primitive(primitive, inputs) => {
            Ok(LevelTree::Primitive(*primitive, numbered_levels(scope, inputs.as_slice())?))
        }
        LevelExpr::Conversion(conversion, operand) => {
            Ok(LevelTree::Conversion(*conversion, boxed_level(scope, operand.get())?))
        }
        LevelExpr::TruthTable(call) => {
            Ok(LevelTree::FirstResult(numbered_call(scope, call.get(), 1)?))
        }
    }
}

/// The same, in a box.
#[cycle(numbered_levels)]
fn boxed_level(scope: &Scope<'_, '_>, tree: &LevelExpr) -> Result<Boxed<LevelTree>, AllocError>
    requires { is_sound_level (tests (lent scope.now)) tree.now ≡ true }
    ensures { IfOk result (λ numbered. spec.IsLevel (lent scope.now) numbered tree.now) }
{
    Boxed::new(scope.alloc, numbered_level(scope, tree)?)
}

/// The numbered trees of levels, in order.
#[cycle(numbered_levels)]
fn numbered_levels(
    scope: &Scope<'_, '_>,
    trees: &[LevelExpr],
) -> Result<Items<LevelTree>, AllocError>
    requires { list_all (is_sound_level (tests (lent scope.now))) trees.now ≡ true }
    ensures { IfOk result (λ numbered. spec.AreLevels (lent scope.now) numbered trees.now) }
{
    let mut numbered = Vec::new(scope.alloc);
    for tree in trees {
        numbered.push(numbered_level(scope, tree)?)?;
    }
    Ok(Items::from_vec(numbered))
}

/// The numbered call of VitalTruthTable with so many results.
#[cycle(numbered_levels)]
fn numbered_call(
    scope: &Scope<'_, '_>,
    call: &TruthTableCall,
    results: usize,
) -> Result<Boxed<TableTree>, AllocError>
    requires inputs { (vector_worth (tests (lent scope.now)) call.now.inputs).0 ≡ true }
    requires table { IsTrue (has_table (lent scope.now) call.now.table (vectors.length_of call.now.inputs) results) }
    ensures { IfOk result (λ numbered. spec.IsCall (lent scope.now) results numbered call.now) }
{
    let table = truth_table(scope, &call.table, length_of(&call.inputs), results)?;
    let inputs = numbered_vector(scope, &call.inputs)?;
    let boxed = Boxed::new(scope.alloc, TableTree { table, inputs })?;
    Ok(boxed)
}

/// The numbered tree of a vector.
#[cycle(numbered_levels)]
pub fn numbered_vector(scope: &Scope<'_, '_>, tree: &VectorExpr) -> Result<VectorTree, AllocError>
    requires { (vector_worth (tests (lent scope.now)) tree.now).0 ≡ true }
    ensures { IfOk result (λ numbered. spec.IsVector (lent scope.now) numbered tree.now) }
{
    match tree {
        VectorExpr::Variable(name, _) => {
            let tree = whole(scope, name)?;
            Ok(tree)
        }
        VectorExpr::Levels(levels) => {
            Ok(VectorTree::Levels(numbered_levels(scope, levels.as_slice())?))
        }
        VectorExpr::Others(level, count) => {
            Ok(VectorTree::Others(boxed_level(scope, level.get())?, *count))
        }
        VectorExpr::Literal(levels) => {
            Ok(VectorTree::Literal(Items::from_slice(scope.alloc, levels.as_slice())?))
        }
        VectorExpr::TruthTable(call, results) => {
            Ok(VectorTree::Results(numbered_call(scope, call.get(), *results)?))
        }
    }
}
