//! Reading the statements of a process. What stands in a branch is read by a parameter, so that each rule is proved by itself.

ghost use Rattle.std.specs.Prelude.{◌≡◌};
ghost use Rattle.vital_vhdl.specs.Reads.{Reads, ReadsWithin};
ghost use Rattle.vital_shapes.specs.Reading.{many};
ghost use Rattle.vital_shapes.specs.Statements as spec;

use crate::cursor::Cursor;
use crate::readers::lists::{self, items_of, separated};
use crate::readers::outermost::{expression, name, optional_value};
use crate::shape_error::ShapeError;
use sqlite_items::Items;
use std::alloc::Global;
use vital_base::Place;
use vital_nodes::{Branch, If, Reference, SignalAssignment, Stmt, VariableAssignment};

/// `<=`, a value, and a delay if it is written.
#[tactic(auto, unfolding(vital_shapes::specs::Statements::signal_assignment))]
pub(crate) fn signal_assignment(
    alloc: Global,
    cursor: &mut Cursor<'_>,
    target: Reference,
) -> Result<SignalAssignment, ShapeError>
    ensures { Reads (spec.signal_assignment target cursor.old) result cursor.new }
{
    cursor.skip();
    let value = expression(alloc, cursor)?;
    let after = optional_value(alloc, cursor)?;
    cursor.skip();
    Ok(SignalAssignment {
        target,
        value,
        after,
    })
}

/// A statement that begins with a name.
#[tactic(auto, unfolding(vital_shapes::specs::Statements::after_name))]
fn after_name(
    alloc: Global,
    cursor: &mut Cursor<'_>,
    place: Place,
    target: Reference,
) -> Result<Stmt, ShapeError>
    ensures { Reads (spec.after_name place target cursor.old) result cursor.new }
{
    match cursor.choice() {
        0 => {
            cursor.skip();
            let value = expression(alloc, cursor)?;
            cursor.skip();
            let assignment = VariableAssignment { target, value };
            Ok(Stmt::VariableAssignment(place, assignment))
        }
        1 => {
            let assignment = signal_assignment(alloc, cursor, target)?;
            Ok(Stmt::SignalAssignment(place, assignment))
        }
        _ => {
            cursor.skip();
            Ok(Stmt::Call(place, target))
        }
    }
}

/// Reads what may hold branches.
#[derive(Clone, Copy)]
struct Branching<F> {
    alloc: Global,
    /// How many levels of `if` there may be in a branch.
    levels: usize,
    statements: F,
}

impl<F: Fn(Global, &mut Cursor<'_>, usize) -> Result<Items<Stmt>, ShapeError>> Branching<F> {
    /// A condition, and the statements that are executed where it holds.
    #[tactic(auto, unfolding(vital_shapes::specs::Statements::branch))]
    fn branch(&self, cursor: &mut Cursor<'_>) -> Result<Branch, ShapeError>
        requires { ReadsWithin spec.statements_within self.now.levels (F.pre self.now.statements) (F.post self.now.statements) }
        ensures { Reads (spec.branch (spec.statements_within self.now.levels) cursor.old) result cursor.new }
    {
        let condition = expression(self.alloc, cursor)?;
        cursor.skip();
        let statements = (self.statements)(self.alloc, cursor, self.levels)?;
        Ok(Branch {
            condition,
            statements,
        })
    }

    /// The statements after `else`, if it is written.
    #[tactic(auto, unfolding(vital_shapes::specs::Statements::otherwise))]
    fn otherwise(&self, cursor: &mut Cursor<'_>) -> Result<Option<Items<Stmt>>, ShapeError>
        requires { ReadsWithin spec.statements_within self.now.levels (F.pre self.now.statements) (F.post self.now.statements) }
        ensures { Reads (spec.otherwise (spec.statements_within self.now.levels) cursor.old) result cursor.new }
    {
        if cursor.choice() == 0 {
            return Ok(None);
        }
        cursor.skip();
        let statements = (self.statements)(self.alloc, cursor, self.levels)?;
        Ok(Some(statements))
    }

    #[tactic(auto, unfolding(vital_shapes::specs::Statements::branches))]
    fn branches(&self, cursor: &mut Cursor<'_>) -> Result<Items<Branch>, ShapeError>
        requires { ReadsWithin spec.statements_within self.now.levels (F.pre self.now.statements) (F.post self.now.statements) }
        ensures { Reads (spec.branches (spec.statements_within self.now.levels) cursor.old) result cursor.new }
    {
        let found = separated(self.alloc, cursor, |cursor| self.branch(cursor))?;
        Ok(items_of(found))
    }

    #[tactic(auto, unfolding(vital_shapes::specs::Statements::if_statement))]
    fn if_statement(&self, cursor: &mut Cursor<'_>, place: Place) -> Result<Stmt, ShapeError>
        requires { ReadsWithin spec.statements_within self.now.levels (F.pre self.now.statements) (F.post self.now.statements) }
        ensures { Reads (spec.if_statement (spec.statements_within self.now.levels) place cursor.old) result cursor.new }
    {
        cursor.skip();
        let branches = self.branches(cursor)?;
        let otherwise = self.otherwise(cursor)?;
        cursor.skip();
        cursor.skip();
        cursor.skip();
        let statement = If {
            branches,
            otherwise,
        };
        Ok(Stmt::If(place, statement))
    }

    #[tactic(auto, unfolding(vital_shapes::specs::Statements::statement))]
    fn statement(&self, cursor: &mut Cursor<'_>) -> Result<Stmt, ShapeError>
        requires { ReadsWithin spec.statements_within self.now.levels (F.pre self.now.statements) (F.post self.now.statements) }
        ensures { Reads (spec.statement (spec.statements_within self.now.levels) cursor.old) result cursor.new }
    {
        let alternative = cursor.choice();
        let place = cursor.place();
        match alternative {
            0 => {
                let target = name(self.alloc, cursor)?;
                after_name(self.alloc, cursor, place, target)
            }
            1 => self.if_statement(cursor, place),
            _ => {
                cursor.skip();
                cursor.skip();
                Ok(Stmt::Null(place))
            }
        }
    }

    fn all(&self, cursor: &mut Cursor<'_>) -> Result<Items<Stmt>, ShapeError>
        requires { ReadsWithin spec.statements_within self.now.levels (F.pre self.now.statements) (F.post self.now.statements) }
        ensures { Reads (many (λ _. spec.statement (spec.statements_within self.now.levels)) cursor.old) result cursor.new }
    {
        lists::many(self.alloc, cursor, |cursor, _| self.statement(cursor))
    }
}

/// Statements with so many levels of `if` in them, or fewer.
fn statements_within(
    alloc: Global,
    cursor: &mut Cursor<'_>,
    levels: usize,
) -> Result<Items<Stmt>, ShapeError>
    ensures { Reads (spec.statements_within levels cursor.old) result cursor.new }
{
    if levels == 0 {
        return Ok(Items::new(alloc));
    }
    Branching {
        alloc,
        levels: levels - 1,
        statements: statements_within,
    }
    .all(cursor)
}

/// The statements of a process.
pub(crate) fn statements(alloc: Global, cursor: &mut Cursor<'_>) -> Result<Items<Stmt>, ShapeError>
    ensures { Reads (spec.statements cursor.old) result cursor.new }
{
    let levels = cursor.left();
    statements_within(alloc, cursor, levels)
}
