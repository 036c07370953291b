//! Relations of levels and of truth values.

ghost use Rattle.std.specs.Prelude.{◌≡◌, ◌++◌, [], Some, IfOk, OnOk};
ghost use Rattle.vital_expr.specs.Booleans as spec;
ghost use Rattle.vital_expr.specs.Outcomes.{both_by};
ghost use Rattle.vital_expr.specs.Readings.{breach};
ghost use Rattle.vital_expr.specs.Seen.{lent};
ghost use Rattle.vital_expr.specs.declared.side.Side.TheVariants as side;

use crate::reader::Reader;
use crate::side::Side;
use sqlite_items::Boxed;
use std::alloc::AllocError;
use vital_base::Place;
use vital_nodes::Expr;
use vital_operands::{BooleanExpr, LevelExpr};

/// Whether two sides of a relation are to be the same, or to be others.
#[derive(Clone, Copy)]
pub enum Equality {
    Same,
    Other,
}

/// Two levels that are compared.
fn of_levels(equality: Equality, left: LevelExpr, right: LevelExpr) -> BooleanExpr
    ensures { result ≡ spec.of_levels equality left right }
{
    match equality {
        Equality::Same => BooleanExpr::SameLevels(left, right),
        Equality::Other => BooleanExpr::OtherLevels(left, right),
    }
}

/// Two truth values that are compared.
fn of_booleans(
    reader: &Reader<'_>,
    equality: Equality,
    left: BooleanExpr,
    right: BooleanExpr,
) -> Result<Option<BooleanExpr>, AllocError>
    ensures { IfOk result (λ tree. tree ≡ Some (spec.of_booleans equality left right)) }
{
    let left = Boxed::new(reader.alloc, left)?;
    let right = Boxed::new(reader.alloc, right)?;
    Ok(Some(match equality {
        Equality::Same => BooleanExpr::Same(left, right),
        Equality::Other => BooleanExpr::Other(left, right),
    }))
}

/// A level that is compared with another side.
fn compared_level(
    reader: &Reader<'_>,
    equality: Equality,
    left: LevelExpr,
    right: Side,
    expr: &Expr,
    broken: &mut Vec<Place>,
) -> Result<Option<BooleanExpr>, AllocError>
    ensures tree { IfOk result (λ tree. tree ≡ (spec.compared (breach (lent reader.now) expr.now) equality (side.Level left) right).tree) }
    ensures places { OnOk result (broken.new.items ≡ broken.old.items ++ (spec.compared (breach (lent reader.now) expr.now) equality (side.Level left) right).places) }
{
    match right {
        Side::Level(right) => Ok(Some(of_levels(equality, left, right))),
        Side::Boolean(right) => {
            drop(left);
            drop(right);
            reader.broken(expr, broken)
        }
    }
}

/// A truth value that is compared with another side.
fn compared_boolean(
    reader: &Reader<'_>,
    equality: Equality,
    left: BooleanExpr,
    right: Side,
    expr: &Expr,
    broken: &mut Vec<Place>,
) -> Result<Option<BooleanExpr>, AllocError>
    ensures tree { IfOk result (λ tree. tree ≡ (spec.compared (breach (lent reader.now) expr.now) equality (side.Boolean left) right).tree) }
    ensures places { OnOk result (broken.new.items ≡ broken.old.items ++ (spec.compared (breach (lent reader.now) expr.now) equality (side.Boolean left) right).places) }
{
    match right {
        Side::Level(right) => {
            drop(left);
            drop(right);
            reader.broken(expr, broken)
        }
        Side::Boolean(right) => of_booleans(reader, equality, left, right),
    }
}

/// Two sides that are compared, both of one kind.
fn compared_sides(
    reader: &Reader<'_>,
    equality: Equality,
    left: Side,
    right: Side,
    expr: &Expr,
    broken: &mut Vec<Place>,
) -> Result<Option<BooleanExpr>, AllocError>
    ensures tree { IfOk result (λ tree. tree ≡ (spec.compared (breach (lent reader.now) expr.now) equality left right).tree) }
    ensures places { OnOk result (broken.new.items ≡ broken.old.items ++ (spec.compared (breach (lent reader.now) expr.now) equality left right).places) }
{
    match left {
        Side::Level(left) => compared_level(reader, equality, left, right, expr, broken),
        Side::Boolean(left) => compared_boolean(reader, equality, left, right, expr, broken),
    }
}

/// The same, if both are of their forms.
#[tactic(auto, using(crate::proofs::Both::both_zipped))]
pub fn compared_if_typed(
    reader: &Reader<'_>,
    equality: Equality,
    left: Option<Side>,
    right: Option<Side>,
    expr: &Expr,
    broken: &mut Vec<Place>,
) -> Result<Option<BooleanExpr>, AllocError>
    ensures tree { IfOk result (λ tree. tree ≡ (both_by (spec.compared (breach (lent reader.now) expr.now) equality) left right []).tree) }
    ensures places { OnOk result (broken.new.items ≡ broken.old.items ++ (both_by (spec.compared (breach (lent reader.now) expr.now) equality) left right []).places) }
{
    match left.zip(right) {
        Some((left, right)) => compared_sides(reader, equality, left, right, expr, broken),
        None => Ok(None),
    }
}
