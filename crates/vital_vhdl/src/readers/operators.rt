//! The operators that the alternatives of the grammar stand for.

ghost use Rattle.std.specs.Prelude.{◌≡◌, Some};
ghost use Rattle.vital_shapes.specs.Expressions as spec;

use crate::cursor::Cursor;
use vital_nodes::{Adding, Direction, Logical, Multiplying, Relational, Sign};

#[tactic(auto, unfolding(vital_shapes::specs::Expressions::logical_of))]
pub(crate) fn logical_of(alternative: u16) -> Logical
    ensures { result ≡ spec.logical_of alternative }
{
    match alternative {
        1 => Logical::And,
        2 => Logical::Or,
        3 => Logical::Xor,
        4 => Logical::Xnor,
        5 => Logical::Nand,
        _ => Logical::Nor,
    }
}

#[tactic(auto, unfolding(vital_shapes::specs::Expressions::relational_of))]
pub(crate) fn relational_of(alternative: u16) -> Relational
    ensures { result ≡ spec.relational_of alternative }
{
    match alternative {
        1 => Relational::Equal,
        2 => Relational::NotEqual,
        3 => Relational::Less,
        4 => Relational::LessOrEqual,
        5 => Relational::Greater,
        _ => Relational::GreaterOrEqual,
    }
}

#[tactic(auto, unfolding(vital_shapes::specs::Expressions::sign_of))]
fn sign_of(alternative: u16) -> Sign
    ensures { result ≡ spec.sign_of alternative }
{
    match alternative {
        1 => Sign::Plus,
        _ => Sign::Minus,
    }
}

#[tactic(auto, unfolding(vital_shapes::specs::Expressions::adding_of))]
pub(crate) fn adding_of(alternative: u16) -> Adding
    ensures { result ≡ spec.adding_of alternative }
{
    match alternative {
        1 => Adding::Add,
        2 => Adding::Subtract,
        _ => Adding::Concatenate,
    }
}

#[tactic(auto, unfolding(vital_shapes::specs::Expressions::multiplying_of))]
pub(crate) fn multiplying_of(alternative: u16) -> Multiplying
    ensures { result ≡ spec.multiplying_of alternative }
{
    match alternative {
        1 => Multiplying::Multiply,
        _ => Multiplying::Divide,
    }
}

#[tactic(auto, unfolding(vital_shapes::specs::Expressions::direction_of))]
fn direction_of(alternative: u16) -> Direction
    ensures { result ≡ spec.direction_of alternative }
{
    match alternative {
        0 => Direction::To,
        _ => Direction::Downto,
    }
}

/// `to` or `downto`.
#[tactic(auto, unfolding(vital_shapes::specs::Expressions::direction))]
pub(crate) fn direction(cursor: &mut Cursor<'_>) -> Direction
    ensures { spec.direction cursor.old ≡ Some (result, cursor.new) }
{
    let alternative = cursor.choice();
    cursor.skip();
    direction_of(alternative)
}

/// `+`, `-` or nothing.
#[tactic(auto, unfolding(vital_shapes::specs::Expressions::sign_before))]
pub(crate) fn sign_before(cursor: &mut Cursor<'_>) -> Option<Sign>
    ensures { spec.sign_before cursor.old ≡ Some (result, cursor.new) }
{
    let alternative = cursor.choice();
    if alternative == 0 {
        return None;
    }
    cursor.skip();
    Some(sign_of(alternative))
}
