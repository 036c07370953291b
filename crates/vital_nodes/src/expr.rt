//! Expressions, names and associations (IEEE 1076-1993, clauses 6 and 7). Each node has the place of its first token.

use crate::identifier::Identifier;
use sqlite_items::{Boxed, Items};
use vital_base::{Name, Place};

/// A logical operator between relations (IEEE 1076-1993, 7.2.1).
#[derive(Clone, Copy, Debug, PartialEq, Eq)]
pub enum Logical {
    And,
    Or,
    Xor,
    Xnor,
    Nand,
    Nor,
}

/// A relational operator (IEEE 1076-1993, 7.2.2).
#[derive(Clone, Copy, PartialEq, Eq)]
pub enum Relational {
    Equal,
    NotEqual,
    Less,
    LessOrEqual,
    Greater,
    GreaterOrEqual,
}

/// A sign before the first term of a sum (IEEE 1076-1993, 7.2.5).
#[derive(Clone, Copy, PartialEq, Eq)]
pub enum Sign {
    Plus,
    Minus,
}

/// An operator between the terms of a sum (IEEE 1076-1993, 7.2.4).
#[derive(Clone, Copy, PartialEq, Eq)]
pub enum Adding {
    Add,
    Subtract,
    Concatenate,
}

/// An operator between the factors of a term (IEEE 1076-1993, 7.2.6).
#[derive(Clone, Copy, PartialEq, Eq)]
pub enum Multiplying {
    Multiply,
    Divide,
}

/// The direction of a range (IEEE 1076-1993, 3.1).
#[derive(Clone, Copy, Debug, PartialEq, Eq)]
pub enum Direction {
    To,
    Downto,
}

/// A number before a unit, as `0.100 ns`.
#[derive(Drop)]
pub struct Physical {
    pub place: Place,
    /// The number as it stands.
    pub number: Name,
    pub unit: Identifier,
}

/// An expression. A chain of operators of one level is one node, so that an expression is nested no deeper than its
/// parentheses, but for the levels of operators between them.
#[cycle(expr)]
#[derive(Drop)]
pub enum Expr {
    /// Two or more relations with one logical operator between them.
    Logical(Place, Logical, Items<Expr>),
    Relation(Boxed<Relation>),
    Sum(Boxed<Sum>),
    Product(Boxed<Product>),
    /// `not`, and what it stands before.
    Not(Place, Boxed<Expr>),
    /// A number with no unit, as it stands.
    Number(Place, Name),
    /// A number and its unit.
    Physical(Boxed<Physical>),
    /// The byte between the apostrophes.
    Character(Place, u8),
    /// A string literal as it stands, with its quotation marks.
    StringLiteral(Place, Name),
    /// A name.
    Reference(Reference),
    /// Items in parentheses.
    Parenthesized(Place, Items<Item>),
}

/// Two sums and the relational operator between them.
#[cycle(expr)]
#[derive(Drop)]
pub struct Relation {
    pub place: Place,
    pub operator: Relational,
    pub left: Expr,
    pub right: Expr,
}

/// A sum with a sign or with two terms or more.
#[cycle(expr)]
#[derive(Drop)]
pub struct Sum {
    pub place: Place,
    pub sign: Option<Sign>,
    pub first: Expr,
    /// The other terms, each after its operator.
    pub others: Items<(Adding, Expr)>,
}

/// A product of two factors or more.
#[cycle(expr)]
#[derive(Drop)]
pub struct Product {
    pub place: Place,
    pub first: Expr,
    /// The other factors, each after its operator.
    pub others: Items<(Multiplying, Expr)>,
}

/// A name: an identifier, and what follows it (IEEE 1076-1993, clause 6).
#[cycle(expr)]
#[derive(Drop)]
pub struct Reference {
    pub identifier: Identifier,
    pub suffixes: Items<Suffix>,
}

/// A part of a name after its identifier.
#[cycle(expr)]
#[derive(Drop)]
pub enum Suffix {
    /// `.` and an identifier.
    Selected(Identifier),
    /// `.all`, with the place of `all`.
    All(Place),
    /// A tick and an identifier.
    Attribute(Identifier),
    /// A tick and items in parentheses.
    Qualified(Items<Item>),
    /// Items in parentheses: the actuals of a call, an index or a slice.
    Items(Items<Item>),
}

/// An item of a list in parentheses: an association, an element of an aggregate, an index or a slice.
#[cycle(expr)]
#[derive(Drop)]
pub enum Item {
    /// `others`, at its place, and its value.
    Others(Place, Boxed<Expr>),
    /// `open`, at its place.
    Open(Place),
    /// A value or a range by position.
    Positional(Choice),
    Named(Boxed<Association>),
}

/// A formal or a choice, and its actual or value behind `=>`.
#[cycle(expr)]
#[derive(Drop)]
pub struct Association {
    pub formal: Choice,
    pub actual: Actual,
}

/// A value or a range.
#[cycle(expr)]
#[derive(Drop)]
pub enum Choice {
    Value(Expr),
    Range(Boxed<Range>),
}

/// Two bounds and the direction between them (IEEE 1076-1993, 3.1).
#[cycle(expr)]
#[derive(Drop)]
pub struct Range {
    pub left: Expr,
    pub direction: Direction,
    pub right: Expr,
}

/// What an arrow points from.
#[cycle(expr)]
#[derive(Drop)]
pub enum Actual {
    Value(Expr),
    /// `open`, at its place.
    Open(Place),
}
