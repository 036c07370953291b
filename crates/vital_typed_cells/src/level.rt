//! The levels that expressions are worth in which nothing is named but constants of packages.

ghost use Rattle.std.specs.Prelude.{◌≡◌, map, replicate, IfOk, IsTrue};
ghost use Rattle.std.specs.List.{AllPass};
ghost use Rattle.vital_primitives.specs.Operators as operators;
ghost use Rattle.vital_typed_cells.specs.Expressions as worth;
ghost use Rattle.vital_typed_cells.specs.PackageWorths.{in_packages, packages_worth};
ghost use Rattle.vital_typed_cells.specs.SoundTrees as sound;

use crate::package_levels::PackageLevels;
use crate::truth_table::truth_results;
use std::alloc::{AllocError, Global};
use vital_logic::{Level, not1};
use vital_operands::{LevelExpr, TruthTableCall, VectorExpr};
use vital_primitives::{converted, operated, primitive};

/// The first of levels; U if there is none.
fn first(levels: &[Level]) -> Level
    ensures { result ≡ operators.first levels.now }
{
    match levels.first() {
        Some(level) => *level,
        None => Level::U,
    }
}

/// So many copies of a level.
fn copies(alloc: Global, level: Level, count: usize) -> Result<Vec<Level>, AllocError>
    ensures { IfOk result (λ found. found.items ≡ replicate count level) }
{
    vec![in alloc; level; count]
}

/// The level that an expression is worth.
#[cycle(worth)]
#[tactic(auto, using(crate::proofs::TreeLemmas::worths, crate::proofs::SoundLemmas::sounds, crate::proofs::CallLemmas::calls))]
pub fn level(
    alloc: Global,
    packages: &PackageLevels<'_>,
    tree: &LevelExpr,
) -> Result<Level, AllocError>
    requires { IsTrue (sound.is_sound_tree packages.now tree.now) }
    ensures { IfOk result (λ l. l ≡ worth.level (in_packages (packages_worth packages.now)) tree.now) }
{
    match tree {
        LevelExpr::Literal(level) => Ok(*level),
        LevelExpr::Signal(_) => Ok(Level::U),
        LevelExpr::Variable(_) => Ok(Level::U),
        LevelExpr::Element(_, _) => Ok(Level::U),
        LevelExpr::Constant(name) => Ok(packages.level(name)),
        LevelExpr::Not(operand) => Ok(not1(level(alloc, packages, operand.get())?)),
        LevelExpr::Logical(operator, operands) => {
            let operands = levels(alloc, packages, operands.as_slice())?;
            Ok(operated(*operator, &operands))
        }
        LevelExpr::Primitive(of, operands) => {
            let operands = levels(alloc, packages, operands.as_slice())?;
            Ok(primitive(*of, &operands))
        }
        LevelExpr::Conversion(to, operand) => {
            Ok(converted(*to, level(alloc, packages, operand.get())?))
        }
        LevelExpr::TruthTable(call) => Ok(first(&results(alloc, packages, call.get(), 1)?)),
    }
}

/// The levels that expressions are worth.
#[cycle(worth)]
#[tactic(auto, using(crate::proofs::TreeLemmas::worths, crate::proofs::SoundLemmas::sounds, crate::proofs::CallLemmas::calls))]
fn levels(
    alloc: Global,
    packages: &PackageLevels<'_>,
    trees: &[LevelExpr],
) -> Result<Vec<Level>, AllocError>
    requires { AllPass (sound.is_sound_tree packages.now) trees.now }
    ensures { IfOk result (λ found. found.items ≡ map (worth.level (in_packages (packages_worth packages.now))) trees.now) }
{
    let mut found = Vec::new(alloc);
    for tree in trees {
        found.push(level(alloc, packages, tree)?)?;
    }
    Ok(found)
}

/// The levels that an expression of a vector is worth.
#[cycle(worth)]
#[tactic(auto, using(crate::proofs::TreeLemmas::worths, crate::proofs::SoundLemmas::sounds, crate::proofs::CallLemmas::calls))]
fn vector(
    alloc: Global,
    packages: &PackageLevels<'_>,
    tree: &VectorExpr,
) -> Result<Vec<Level>, AllocError>
    requires { IsTrue (sound.is_sound_vector packages.now tree.now) }
    ensures { IfOk result (λ found. found.items ≡ worth.vector (in_packages (packages_worth packages.now)) tree.now) }
{
    match tree {
        VectorExpr::Variable(_, _) => Ok(Vec::new(alloc)),
        VectorExpr::Levels(trees) => levels(alloc, packages, trees.as_slice()),
        VectorExpr::Others(tree, length) => {
            let level = level(alloc, packages, tree.get())?;
            copies(alloc, level, *length)
        }
        VectorExpr::Literal(literal) => Vec::from_slice(alloc, literal.as_slice()),
        VectorExpr::TruthTable(call, length) => results(alloc, packages, call.get(), *length),
    }
}

/// So many results of a call of a truth table.
#[cycle(worth)]
#[tactic(auto, using(crate::proofs::TreeLemmas::worths, crate::proofs::SoundLemmas::sounds, crate::proofs::CallLemmas::calls))]
fn results(
    alloc: Global,
    packages: &PackageLevels<'_>,
    call: &TruthTableCall,
    count: usize,
) -> Result<Vec<Level>, AllocError>
    requires { IsTrue (sound.is_sound_call packages.now call.now count) }
    ensures { IfOk result (λ found. found.items ≡ worth.results (in_packages (packages_worth packages.now)) call.now count) }
{
    let inputs = vector(alloc, packages, &call.inputs)?;
    truth_results(alloc, packages.rows(&call.table), &inputs, count)
}
