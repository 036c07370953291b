//! Typed expressions: what an expression of a cell is where a type is asked of it. Names are kept; an alias is what it names.

use sqlite_items::{Boxed, Items};
use vital_base::{Name, Time};
use vital_logic::Level;
use vital_names::{Conversion, Primitive};
use vital_nodes::Logical;
use vital_timing::Delay;

/// A constant that an expression names.
#[derive(Drop)]
pub enum ConstantName {
    /// A constant of the cell.
    Cell(Name),
    /// A constant of a package, by its number among the constants of all packages of the library, from 0.
    Package(usize),
}

/// An expression that gives a level (IEEE 1164).
#[cycle(typed)]
#[derive(Drop)]
pub enum LevelExpr {
    Literal(Level),
    /// An internal signal, or an in or inout port.
    Signal(Name),
    /// A level variable.
    Variable(Name),
    /// The element of a vector variable at a number of places behind its left end.
    Element(Name, usize),
    Constant(ConstantName),
    Not(Boxed<LevelExpr>),
    /// Two or more levels with one operator between them. NAND and NOR have two.
    Logical(Logical, Items<LevelExpr>),
    Primitive(Primitive, Items<LevelExpr>),
    Conversion(Conversion, Boxed<LevelExpr>),
    /// VitalTruthTable with one result.
    TruthTable(Boxed<TruthTableCall>),
}

/// An expression that gives a vector of levels.
#[cycle(typed)]
#[derive(Drop)]
pub enum VectorExpr {
    /// A vector variable, and its length.
    Variable(Name, usize),
    Levels(Items<LevelExpr>),
    /// One level for so many elements.
    Others(Boxed<LevelExpr>, usize),
    /// The levels of a string literal.
    Literal(Items<Level>),
    /// VitalTruthTable, and the number of its results.
    TruthTable(Boxed<TruthTableCall>, usize),
}

/// A call of VitalTruthTable (IEEE 1076.4, package VITAL_Primitives).
#[cycle(typed)]
#[derive(Drop)]
pub struct TruthTableCall {
    pub table: ConstantName,
    pub inputs: VectorExpr,
}

/// A control of a cell's checks and messages (IEEE 1076.4).
#[derive(Clone, Copy, Debug, PartialEq, Eq)]
pub enum Control {
    TimingChecksOn,
    XOn,
    MsgOn,
}

/// An expression that gives a truth value.
#[cycle(truth)]
#[derive(Drop)]
pub enum BooleanExpr {
    Literal(bool),
    Control(Control),
    /// Whether two levels are the same.
    SameLevels(LevelExpr, LevelExpr),
    OtherLevels(LevelExpr, LevelExpr),
    Same(Boxed<BooleanExpr>, Boxed<BooleanExpr>),
    Other(Boxed<BooleanExpr>, Boxed<BooleanExpr>),
    Not(Boxed<BooleanExpr>),
    Logical(Logical, Items<BooleanExpr>),
}

/// An expression that gives a time.
#[derive(Drop)]
pub enum TimeExpr {
    Literal(Time),
    /// A generic of type VitalDelayType.
    Generic(Name),
    /// A constant of type TIME.
    Constant(ConstantName),
}

/// An expression that gives a delay.
#[derive(Drop)]
pub enum DelayExpr {
    Literal(Delay),
    Generic(Name),
    Constant(ConstantName),
}
