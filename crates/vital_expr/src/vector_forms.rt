//! What vectors are made of: lists of levels, one level for all elements, string literals and variables.

ghost use Rattle.std.specs.Prelude.{◌≡◌, ◌++◌, [], ◌∷◌, IfOk, OnOk};
ghost use Rattle.vital_expr.specs.Names as names;
ghost use Rattle.vital_expr.specs.Readings.{breach};
ghost use Rattle.vital_expr.specs.Seen.{lent};
ghost use Rattle.vital_expr.specs.Vectors as spec;
ghost use Rattle.vital_operands.specs.Items.{levels_of_text};
ghost use Rattle.vital_operands.specs.Named.{vector_named};

use crate::lengths::{if_fits, if_vector_fits};
use crate::reader::Reader;
use sqlite_items::{Boxed, Items};
use std::alloc::{AllocError, Global};
use vital_base::Place;
use vital_logic::Level;
use vital_nodes::{Expr, Identifier};
use vital_operands::{LevelExpr, VectorExpr, levels_of_text};

/// A list of levels of which a length is asked.
pub(crate) fn list_of_levels(
    reader: &Reader<'_>,
    levels: Items<LevelExpr>,
    asked: Option<usize>,
    expr: &Expr,
    broken: &mut Vec<Place>,
) -> Result<Option<VectorExpr>, AllocError>
    ensures tree { IfOk result (λ tree. tree ≡ (spec.list_of_levels (breach (lent reader.now) expr.now) asked levels).tree) }
    ensures places { OnOk result (broken.new.items ≡ broken.old.items ++ (spec.list_of_levels (breach (lent reader.now) expr.now) asked levels).places) }
{
    if_vector_fits(reader, VectorExpr::Levels(levels), asked, expr, broken)
}

/// A list of one level.
pub(crate) fn list_of_one(
    reader: &Reader<'_>,
    level: LevelExpr,
    asked: Option<usize>,
    expr: &Expr,
    broken: &mut Vec<Place>,
) -> Result<Option<VectorExpr>, AllocError>
    ensures tree { IfOk result (λ tree. tree ≡ (spec.list_of_levels (breach (lent reader.now) expr.now) asked (level ∷ [])).tree) }
    ensures places { OnOk result (broken.new.items ≡ broken.old.items ++ (spec.list_of_levels (breach (lent reader.now) expr.now) asked (level ∷ [])).places) }
{
    let mut levels = Vec::new(reader.alloc);
    levels.push(level)?;
    list_of_levels(reader, Items::from_vec(levels), asked, expr, broken)
}

/// One level for each element, where a length is asked.
pub(crate) fn others_of_length(
    reader: &Reader<'_>,
    level: LevelExpr,
    asked: Option<usize>,
    expr: &Expr,
    broken: &mut Vec<Place>,
) -> Result<Option<VectorExpr>, AllocError>
    ensures tree { IfOk result (λ tree. tree ≡ (spec.others_of_length (breach (lent reader.now) expr.now) asked level).tree) }
    ensures places { OnOk result (broken.new.items ≡ broken.old.items ++ (spec.others_of_length (breach (lent reader.now) expr.now) asked level).places) }
{
    match asked {
        Some(length) => {
            let level = Boxed::new(reader.alloc, level)?;
            Ok(Some(VectorExpr::Others(level, length)))
        }
        None => reader.broken(expr, broken),
    }
}

/// The vector of the levels of a string literal, if they are so many as are asked.
fn vector_of_levels(levels: Option<Items<Level>>, asked: Option<usize>) -> Option<VectorExpr>
    ensures { result ≡ spec.vector_of_levels asked levels }
{
    match levels {
        Some(levels) => if_fits(VectorExpr::Literal(levels), asked),
        None => None,
    }
}

/// The vector of a string literal, if it has so many levels as are asked.
pub(crate) fn vector_of_text(
    alloc: Global,
    text: &[u8],
    asked: Option<usize>,
) -> Result<Option<VectorExpr>, AllocError>
    ensures { IfOk result (λ tree. tree ≡ spec.vector_of_levels asked (levels_of_text text.now)) }
{
    let levels = levels_of_text(alloc, text)?;
    Ok(vector_of_levels(levels, asked))
}

/// A vector variable, if it has so many elements as are asked.
pub(crate) fn whole_vector(
    reader: &Reader<'_>,
    identifier: &Identifier,
    asked: Option<usize>,
) -> Result<Option<VectorExpr>, AllocError>
    ensures { IfOk result (λ tree. tree ≡ names.whole_vector asked (vector_named (lent reader.now).position identifier.now)) }
{
    match reader.position.vector_named(reader.alloc, identifier)? {
        Some(vector) => Ok(if_fits(vector, asked)),
        None => Ok(None),
    }
}
