//! The table and the results of a call of VitalTruthTable.

ghost use Rattle.std.specs.Prelude.{◌≡◌, ◌++◌, Some, IfOk, OnOk};
ghost use Rattle.std.specs.Option.{option_and_then};
ghost use Rattle.vital_expr.specs.Names as spec;
ghost use Rattle.vital_expr.specs.Outcomes.{typed};
ghost use Rattle.vital_expr.specs.Readings.{breach};
ghost use Rattle.vital_expr.specs.Seen.{lent};
ghost use Rattle.vital_expr.specs.Steps.{item_reading};
ghost use Rattle.vital_expr.specs.Alone as alone;
ghost use Rattle.vital_operands.specs.Named.{table_named};
ghost use Rattle.vital_nodes.specs.Names.{identifier_of};

use crate::lengths::{if_vector_fits, length_of};
use crate::reader::Reader;
use crate::vector_forms::list_of_one;
use sqlite_items::Boxed;
use std::alloc::AllocError;
use vital_base::Place;
use vital_nodes::{Expr, Item, actual, identifier_of};
use vital_operands::{ConstantName, LevelExpr, TruthTableCall, VectorExpr};

/// The table of a name, with the number of its columns.
fn table_named(
    reader: &Reader<'_>,
    expr: &Expr,
) -> Result<Option<(ConstantName, usize)>, AllocError>
    ensures { IfOk result (λ table. table ≡ option_and_then (table_named (lent reader.now).position) (identifier_of expr.now)) }
{
    match identifier_of(expr) {
        Some(identifier) => reader.position.table_named(reader.alloc, identifier),
        None => Ok(None),
    }
}

/// The table that an actual names, with the number of its columns.
#[tactic(auto, using(crate::proofs::CallLaws::own_law))]
pub(crate) fn table_actual(
    reader: &Reader<'_>,
    item: &Item,
    broken: &mut Vec<Place>,
) -> Result<Option<(ConstantName, usize)>, AllocError>
    ensures tree { IfOk result (λ tree. tree ≡ (spec.table_actual (lent reader.now).position item.now (item_reading (lent reader.now) item.now)).tree) }
    ensures places { OnOk result (broken.new.items ≡ broken.old.items ++ (spec.table_actual (lent reader.now).position item.now (item_reading (lent reader.now) item.now)).places) }
{
    match actual(item) {
        Some(value) => {
            let table = table_named(reader, value)?;
            reader.or_broken(table, value, broken)
        }
        None => Ok(None),
    }
}

/// A call, and how many results it has: the columns of its table behind those of the inputs.
pub(crate) fn called(table: (ConstantName, usize), inputs: VectorExpr) -> (TruthTableCall, usize)
    ensures { spec.called table inputs ≡ typed result }
{
    let (table, columns) = table;
    let results = columns.saturating_sub(length_of(&inputs));
    (TruthTableCall { table, inputs }, results)
}

/// A call of which a level is asked.
pub(crate) fn one_result(
    reader: &Reader<'_>,
    called: (TruthTableCall, usize),
    expr: &Expr,
    broken: &mut Vec<Place>,
) -> Result<Option<LevelExpr>, AllocError>
    ensures tree { IfOk result (λ tree. tree ≡ (spec.one_result (breach (lent reader.now) expr.now) called).tree) }
    ensures places { OnOk result (broken.new.items ≡ broken.old.items ++ (spec.one_result (breach (lent reader.now) expr.now) called).places) }
{
    let (call, results) = called;
    if results == 1 {
        Ok(Some(LevelExpr::TruthTable(Boxed::new(reader.alloc, call)?)))
    } else {
        reader.broken(expr, broken)
    }
}

/// A call of which a vector is asked.
pub(crate) fn some_results(
    reader: &Reader<'_>,
    called: (TruthTableCall, usize),
    asked: Option<usize>,
    expr: &Expr,
    broken: &mut Vec<Place>,
) -> Result<Option<VectorExpr>, AllocError>
    ensures tree { IfOk result (λ tree. tree ≡ (spec.some_results (breach (lent reader.now) expr.now) asked called).tree) }
    ensures places { OnOk result (broken.new.items ≡ broken.old.items ++ (spec.some_results (breach (lent reader.now) expr.now) asked called).places) }
{
    let (call, results) = called;
    if results == 0 {
        reader.broken(expr, broken)
    } else {
        let vector = VectorExpr::TruthTable(Boxed::new(reader.alloc, call)?, results);
        if_vector_fits(reader, vector, asked, expr, broken)
    }
}

/// A call that is the one value in parentheses, beside what is broken in it: a list of its result where it has one, and else its
/// results.
pub(crate) fn call_alone(
    reader: &Reader<'_>,
    called: Option<(TruthTableCall, usize)>,
    found: &[Place],
    value: &Expr,
    asked: Option<usize>,
    expr: &Expr,
    broken: &mut Vec<Place>,
) -> Result<Option<VectorExpr>, AllocError>
    ensures tree { IfOk result (λ tree. tree ≡ (alone.call_if_typed (breach (lent reader.now) expr.now) (breach (lent reader.now) value.now) asked found.now called).tree) }
    ensures places { OnOk result (broken.new.items ≡ broken.old.items ++ (alone.call_if_typed (breach (lent reader.now) expr.now) (breach (lent reader.now) value.now) asked found.now called).places) }
{
    match called {
        Some((call, 1)) => {
            let level = LevelExpr::TruthTable(Boxed::new(reader.alloc, call)?);
            list_of_one(reader, level, asked, expr, broken)
        }
        Some(called) => {
            broken.extend_from_slice(found)?;
            some_results(reader, called, asked, value, broken)
        }
        None => {
            broken.extend_from_slice(found)?;
            Ok(None)
        }
    }
}
