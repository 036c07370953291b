//! VHDL files as units with a place on each node.
#![tactic(auto)]

mod cursor;
mod laws;
mod read;
mod readers;
mod shape_error;

pub use laws::{one_reading, units_stand};
pub use read::{UnitError, read_units};
pub use vital_grammar::vhdl_rules;
pub use vital_nodes::{
    Actual, Adding, Alias, Arch, Association, Block, Branch, Choice, Component, Conc, Config, Decl,
    Designator, Direction, Entity, EntityClass, Expr, Identifier, IdentifierName, If, Iface,
    IfaceClass, IfaceParts, Instance, Item, Logical, Mode, Multiplying, Object, ObjectClass,
    ObjectParts, Pack, Physical, Process, Product, Range, Reference, Relation, Relational, Role,
    Shared, Sign, SignalAssignment, Specification, Stmt, Subtype, Suffix, Sum, Unit, Units,
    VariableAssignment,
};
