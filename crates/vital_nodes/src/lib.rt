//! The nodes of VHDL units: what a file is read as, and what the rules of VITAL speak of, each with its place; and access to them:
//! each part by one name, all nodes of a unit in one list, and what is made of a node from its parts upwards.
#![tactic(auto)]

mod concurrent;
mod decl;
mod declaration_parts;
mod expr;
mod expression_parts;
mod has_identifier;
mod identifier;
mod item;
mod laws;
mod name;
mod node;
mod object;
mod place;
mod put;
mod shared;
mod statement_parts;
mod statements;
mod stmt;
mod subtype;
mod unit;
mod unit_parts;
mod upward;
mod walk;

pub use concurrent::{call, call_items};
pub use decl::{
    Alias, Component, Decl, Designator, EntityClass, Iface, IfaceClass, IfaceParts, Mode, Object,
    ObjectClass, ObjectParts, Specification, Subtype,
};
pub use declaration_parts::put_shared_parts;
pub use expr::{
    Actual, Adding, Association, Choice, Direction, Expr, Item, Logical, Multiplying, Physical,
    Product, Range, Reference, Relation, Relational, Sign, Suffix, Sum,
};
pub use has_identifier::HasIdentifier;
pub use identifier::{Identifier, IdentifierName};
pub use item::{actual, formal, listed_items, positional_value};
pub use laws::{folded_upwards, walked_in_preorder};
pub use name::{identifier_of, last_identifier, plain_identifier};
pub use node::Node;
pub use object::is_constant;
pub use place::HasPlace;
pub use put::put_if_there;
pub use shared::Shared;
pub use statements::{all_concurrent, all_sequential};
pub use stmt::{
    Block, Branch, Conc, If, Instance, Process, SignalAssignment, Stmt, VariableAssignment,
};
pub use subtype::{LiteralBounds, literal_bounds, literal_integer};
pub use unit::{Arch, Config, Entity, Pack, Role, Unit, Units};
pub use unit_parts::put_parts;
pub use upward::{UpwardRule, fold_up};
pub use walk::{nodes, nodes_of, nodes_of_all};
