//! Sides of relations.

use vital_operands::{BooleanExpr, LevelExpr};

/// A side of a relation: a level or a truth value.
#[derive(Drop)]
pub enum Side {
    Level(LevelExpr),
    Boolean(BooleanExpr),
}
