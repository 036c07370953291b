//! Statements (IEEE 1076-1993, clauses 8 and 9). Each has the place of its first token.

use crate::decl::Decl;
use crate::expr::{Expr, Item, Reference};
use crate::identifier::Identifier;
use sqlite_items::Items;
use vital_base::Place;

/// `target := value` (IEEE 1076-1993, 8.5).
#[derive(Drop)]
pub struct VariableAssignment {
    pub target: Reference,
    pub value: Expr,
}

/// `target <= value`, and after how long if that is written (IEEE 1076-1993, 8.4).
#[derive(Drop)]
pub struct SignalAssignment {
    pub target: Reference,
    pub value: Expr,
    pub after: Option<Expr>,
}

/// A condition, and the statements that are executed where it holds.
#[cycle(stmt)]
#[derive(Drop)]
pub struct Branch {
    pub condition: Expr,
    pub statements: Items<Stmt>,
}

/// `if` with its branches, of which there is at least one, and the statements after `else`, if that is written.
#[cycle(stmt)]
#[derive(Drop)]
pub struct If {
    pub branches: Items<Branch>,
    pub otherwise: Option<Items<Stmt>>,
}

/// A statement of a process.
#[cycle(stmt)]
#[derive(Drop)]
pub enum Stmt {
    VariableAssignment(Place, VariableAssignment),
    SignalAssignment(Place, SignalAssignment),
    /// A call of a procedure.
    Call(Place, Reference),
    If(Place, If),
    Null(Place),
}

/// A process, without its label.
#[derive(Drop)]
pub struct Process {
    /// The names of its sensitivity list. There are none where it has no list.
    pub sensitivity: Items<Reference>,
    pub declarations: Items<Decl>,
    pub statements: Items<Stmt>,
}

/// An instance with its associations. A list is empty where it is not written.
#[derive(Drop)]
pub struct Instance {
    pub label: Identifier,
    pub unit: Reference,
    pub generics: Items<Item>,
    pub ports: Items<Item>,
}

/// A block from its keyword on.
#[cycle(conc)]
#[derive(Drop)]
pub struct Block {
    pub declarations: Items<Decl>,
    pub statements: Items<Conc>,
}

/// A concurrent statement.
#[cycle(conc)]
#[derive(Drop)]
pub enum Conc {
    /// A process, after its label if it has one.
    Process(Place, Option<Identifier>, Process),
    /// An instance with the word `component` behind its label.
    ComponentInstance(Place, Instance),
    /// A label, and a name with its maps: an instance, or a call of a procedure if there are no maps.
    Instance(Place, Instance),
    /// A label, and a block.
    Block(Place, Identifier, Block),
    /// A call of a procedure without a label.
    Call(Place, Reference),
    SignalAssignment(Place, SignalAssignment),
}
