//! The lengths of vectors.

ghost use Rattle.std.specs.Prelude.{◌≡◌, ◌++◌, IfOk, OnOk};
ghost use Rattle.vital_expr.specs.Readings.{breach};
ghost use Rattle.vital_expr.specs.Seen.{lent};
ghost use Rattle.vital_expr.specs.Vectors as spec;

use crate::reader::Reader;
use std::alloc::AllocError;
use vital_base::Place;
use vital_nodes::Expr;
use vital_operands::VectorExpr;

/// How many elements a vector has.
pub fn length_of(vector: &VectorExpr) -> usize
    ensures { result ≡ spec.length_of vector.now }
{
    match vector {
        VectorExpr::Variable(_, length)
        | VectorExpr::Others(_, length)
        | VectorExpr::TruthTable(_, length) => *length,
        VectorExpr::Levels(levels) => levels.len(),
        VectorExpr::Literal(levels) => levels.len(),
    }
}

/// Whether a length is the one that is asked, if one is.
fn fits(asked: Option<usize>, length: usize) -> bool
    ensures { result ≡ spec.fits asked length }
{
    match asked {
        Some(asked) => asked == length,
        None => true,
    }
}

/// A vector, if its length is the one that is asked.
pub(crate) fn if_fits(vector: VectorExpr, asked: Option<usize>) -> Option<VectorExpr>
    ensures { result ≡ spec.if_fits asked vector }
{
    if fits(asked, length_of(&vector)) {
        Some(vector)
    } else {
        None
    }
}

/// A vector of which a length is asked.
pub(crate) fn if_vector_fits(
    reader: &Reader<'_>,
    vector: VectorExpr,
    asked: Option<usize>,
    expr: &Expr,
    broken: &mut Vec<Place>,
) -> Result<Option<VectorExpr>, AllocError>
    ensures tree { IfOk result (λ tree. tree ≡ (spec.if_vector_fits (breach (lent reader.now) expr.now) asked vector).tree) }
    ensures places { OnOk result (broken.new.items ≡ broken.old.items ++ (spec.if_vector_fits (breach (lent reader.now) expr.now) asked vector).places) }
{
    reader.or_broken(if_fits(vector, asked), expr, broken)
}
