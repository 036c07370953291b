//! Typed expressions with numbers in place of names, as they are evaluated while a run goes on. What is known before that is in them:
//! constants, generics and controls.

use crate::truth_table::TruthTable;
use sqlite_items::{Boxed, Items};
use vital_logic::Level;
use vital_names::{Conversion, Primitive};
use vital_nodes::Logical;

/// An expression that gives a level (IEEE 1164).
#[cycle(numbered)]
#[derive(Drop)]
pub enum LevelTree {
    Literal(Level),
    /// The value of a bit of the ports or of the internal signals, by its number among them.
    Bit(usize),
    /// The level at a number of places behind the left end of a variable, which has a number among those of its process. A variable of
    /// one level has it at 0.
    Element(usize, usize),
    Not(Boxed<LevelTree>),
    /// Two or more levels with one operator between them.
    Logical(Logical, Items<LevelTree>),
    /// A primitive of at most four inputs.
    Primitive(Primitive, Items<LevelTree>),
    Conversion(Conversion, Boxed<LevelTree>),
    /// The first result of a table.
    FirstResult(Boxed<TableTree>),
}

/// An expression that gives a vector of levels.
#[cycle(numbered)]
#[derive(Drop)]
pub enum VectorTree {
    /// A variable, by its number among those of its process.
    Variable(usize),
    Levels(Items<LevelTree>),
    /// One level for so many elements.
    Others(Boxed<LevelTree>, usize),
    Literal(Items<Level>),
    /// The results of a table.
    Results(Boxed<TableTree>),
}

/// A call of VitalTruthTable (IEEE 1076.4, package VITAL_Primitives).
#[cycle(numbered)]
#[derive(Drop)]
pub struct TableTree {
    pub table: TruthTable,
    pub inputs: VectorTree,
}

/// An expression that gives a truth value.
#[cycle(numbered_truth)]
#[derive(Drop)]
pub enum TruthTree {
    Literal(bool),
    /// Whether two levels are the same.
    SameLevels(LevelTree, LevelTree),
    OtherLevels(LevelTree, LevelTree),
    Same(Boxed<TruthTree>, Boxed<TruthTree>),
    Other(Boxed<TruthTree>, Boxed<TruthTree>),
    Not(Boxed<TruthTree>),
    Logical(Logical, Items<TruthTree>),
}
