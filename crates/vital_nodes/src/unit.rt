//! The units of a file (IEEE 1076-1993, clauses 1 and 11). Each has the place of its first token.

use crate::decl::{Decl, Iface};
use crate::identifier::Identifier;
use crate::stmt::Conc;
use sqlite_items::Items;
use vital_base::{List, Place};

/// An entity declaration.
#[derive(Drop)]
pub struct Entity {
    pub place: Place,
    pub identifier: Identifier,
    pub generics: Items<Iface>,
    pub ports: Items<Iface>,
    pub declarations: Items<Decl>,
    pub statements: Items<Conc>,
}

/// An architecture body.
#[derive(Drop)]
pub struct Arch {
    pub place: Place,
    pub identifier: Identifier,
    /// The entity that it is of.
    pub entity: Identifier,
    pub declarations: Items<Decl>,
    pub statements: Items<Conc>,
}

/// A package declaration.
#[derive(Drop)]
pub struct Pack {
    pub place: Place,
    pub identifier: Identifier,
    pub declarations: Items<Decl>,
}

/// A configuration declaration.
#[derive(Drop)]
pub struct Config {
    pub place: Place,
    pub identifier: Identifier,
    /// The entity that it is of.
    pub entity: Identifier,
    /// The architecture that it is for.
    pub arch: Identifier,
}

/// A unit of a file.
#[derive(Drop)]
pub enum Unit {
    Entity(Entity),
    Arch(Arch),
    Pack(Pack),
    Config(Config),
}

/// What the entities of a file are: cells of a library, or units of a netlist.
#[derive(Clone, Copy, PartialEq, Eq)]
pub enum Role {
    Lib,
    Net,
}

/// The units of a file, in order.
#[derive(Drop)]
pub struct Units {
    pub role: Role,
    pub units: List<Unit>,
    /// How many tokens the file has.
    pub tokens: u32,
}
