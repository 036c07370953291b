//! Typed statements.

ghost use Rattle.std.specs.Prelude.{◌≡◌, ◌++◌, map, IfOk, OnOk};
ghost use Rattle.std.specs.Option.{option_copied};
ghost use Rattle.vital_expr.specs.Outcomes.{all_typed};
ghost use Rattle.vital_expr.specs.Readings.{boolean_of};
ghost use Rattle.vital_expr.specs.Seen.{lent};
ghost use Rattle.vital_nodes.specs.declared.stmt.Stmt.TheViews.{out-Stmt};
ghost use Rattle.vital_typed_statements.specs.Statements as spec;
ghost use Rattle.vital_typed_statements.specs.Uses.{statement_uses};

use crate::call::read_call;
use crate::given::GivenActual;
use sqlite_items::Items;
use std::alloc::AllocError;
use vital_actuals::{Target, read_target};
use vital_base::Place;
use vital_expr::{Reader, Trees, boolean, level, vector};
use vital_names::{CellNames, Procedure, ProcessNames};
use vital_nodes::{Branch, Expr, Stmt, VariableAssignment};
use vital_operands::{BooleanExpr, LevelExpr, VectorExpr};
use vital_table_uses::TableUse;

/// A value that is assigned.
#[derive(Drop)]
pub enum Value {
    Level(LevelExpr),
    /// A vector as long as its target.
    Vector(VectorExpr),
}

/// A statement of a process, without those that stand in it, or a concurrent call.
#[derive(Drop)]
pub enum TypedStatement {
    Assignment(Target, Value),
    /// A call of a procedure, with an actual for each of its items, in their order.
    Call(Procedure, Items<GivenActual>),
    /// An `if` with its conditions.
    Conditions(Items<BooleanExpr>),
    /// Any other statement. A cell of Level 1 has none.
    Other,
}

/// A value for a target: a level, or a vector of its length.
fn read_value(
    reader: &Reader<'_>,
    target: &Target,
    expr: &Expr,
    broken: &mut Vec<Place>,
) -> Result<Option<Value>, AllocError>
    ensures tree { IfOk result (λ value. value ≡ (spec.value_for (lent reader.now) target.now expr.now).tree) }
    ensures places { OnOk result (broken.new.items ≡ broken.old.items ++ (spec.value_for (lent reader.now) target.now expr.now).places) }
{
    match target {
        Target::Level(_) | Target::Element(_, _) => match level(reader, expr, broken)? {
            Some(level) => Ok(Some(Value::Level(level))),
            None => Ok(None),
        },
        Target::Vector(_, length) => match vector(reader, expr, Some(*length), broken)? {
            Some(vector) => Ok(Some(Value::Vector(vector))),
            None => Ok(None),
        },
    }
}

/// An assignment to a target.
fn read_assigned(
    reader: &Reader<'_>,
    expr: &Expr,
    target: Target,
    broken: &mut Vec<Place>,
) -> Result<Option<TypedStatement>, AllocError>
    ensures tree { IfOk result (λ statement. statement ≡ (spec.assigned (lent reader.now) expr.now target).tree) }
    ensures places { OnOk result (broken.new.items ≡ broken.old.items ++ (spec.assigned (lent reader.now) expr.now target).places) }
{
    match read_value(reader, &target, expr, broken)? {
        Some(value) => Ok(Some(TypedStatement::Assignment(target, value))),
        None => Ok(None),
    }
}

/// An assignment. Of a value for what is no target nothing is asked.
fn read_assignment(
    reader: &Reader<'_>,
    assignment: &VariableAssignment,
    broken: &mut Vec<Place>,
) -> Result<Option<TypedStatement>, AllocError>
    ensures tree { IfOk result (λ statement. statement ≡ (spec.assignment (lent reader.now) assignment.now).tree) }
    ensures places { OnOk result (broken.new.items ≡ broken.old.items ++ (spec.assignment (lent reader.now) assignment.now).places) }
{
    match read_target(reader, &assignment.target, broken)? {
        Some(target) => read_assigned(reader, &assignment.value, target, broken),
        None => Ok(None),
    }
}

/// The conditions of branches.
fn read_conditions(
    reader: &Reader<'_>,
    branches: &[Branch],
    broken: &mut Vec<Place>,
) -> Result<Option<Items<BooleanExpr>>, AllocError>
    ensures tree { IfOk result (λ conditions. conditions ≡ (all_typed (map (λ b. boolean_of (lent reader.now) b.condition) branches.now)).tree) }
    ensures places { OnOk result (broken.new.items ≡ broken.old.items ++ (all_typed (map (λ b. boolean_of (lent reader.now) b.condition) branches.now)).places) }
{
    let mut conditions = Trees::new(reader.alloc);
    for branch in branches {
        let condition = boolean(reader, &branch.condition, broken)?;
        conditions.put(condition)?;
    }
    Ok(conditions.into_items())
}

/// An `if`, without the statements that stand in it.
fn read_if(
    reader: &Reader<'_>,
    branches: &[Branch],
    broken: &mut Vec<Place>,
) -> Result<Option<TypedStatement>, AllocError>
    ensures tree { IfOk result (λ statement. statement ≡ (spec.conditions (lent reader.now) branches.now).tree) }
    ensures places { OnOk result (broken.new.items ≡ broken.old.items ++ (spec.conditions (lent reader.now) branches.now).places) }
{
    match read_conditions(reader, branches, broken)? {
        Some(conditions) => Ok(Some(TypedStatement::Conditions(conditions))),
        None => Ok(None),
    }
}

/// A statement of a process, or of none, without those that stand in it; and where a part of it is not of the form or type that is
/// asked of it, and the state table that it uses. The reader stands in that process. It takes time in proportion to the statement.
pub fn read_statement<'a>(
    reader: &Reader<'a>,
    names: &'a CellNames<'a>,
    process: Option<&'a ProcessNames<'a>>,
    stmt: &Stmt,
    broken: &mut Vec<Place>,
    uses: &mut Vec<TableUse>,
) -> Result<Option<TypedStatement>, AllocError>
    ensures tree { IfOk result (λ statement. statement ≡ (spec.statement_in (lent reader.now) names.now (option_copied process.entry) (out-Stmt stmt.now)).tree) }
    ensures places { OnOk result (broken.new.items ≡ broken.old.items ++ (spec.statement_in (lent reader.now) names.now (option_copied process.entry) (out-Stmt stmt.now)).places) }
    ensures uses { OnOk result (uses.new.items ≡ uses.old.items ++ statement_uses (lent reader.now) names.now (option_copied process.entry) (out-Stmt stmt.now)) }
{
    match stmt {
        Stmt::VariableAssignment(_, assignment) => read_assignment(reader, assignment, broken),
        Stmt::Call(_, name) => read_call(reader, names, process, name, broken, uses),
        Stmt::If(_, condition) => read_if(reader, condition.branches.as_slice(), broken),
        Stmt::SignalAssignment(_, _) | Stmt::Null(_) => Ok(Some(TypedStatement::Other)),
    }
}
