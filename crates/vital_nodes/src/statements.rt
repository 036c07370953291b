//! All statements, with those that stand in others.

ghost use Rattle.std.specs.Prelude.{◌≡◌, [], ◌∷◌, ◌++◌, map, IfOk, OnOk};
ghost use Rattle.std.specs.List.{flat_map};
ghost use Rattle.vital_nodes.specs.Statements.{all_concurrent, all_sequential, in_branch, in_concurrent, in_if, in_sequential};

use crate::laws::walked_in_preorder;
use crate::stmt::{Branch, Conc, If, Stmt};
use std::alloc::{AllocError, Global};

/// Concurrent statements with those in their blocks, as one list in the order of the text. It takes time in proportion to the
/// statements.
pub fn all_concurrent<'a>(
    alloc: Global,
    statements: &'a [Conc],
) -> Result<Vec<&'a Conc>, AllocError>
    ensures { IfOk result (λ all. map (λ c. c.now) all.items ≡ all_concurrent statements.now) }
{
    let mut all = Vec::new(alloc);
    put_all_concurrent(&mut all, statements)?;
    Ok(all)
}

/// Puts concurrent statements at the end, each before those in it.
#[cycle(concurrent)]
fn put_all_concurrent<'a>(all: &mut Vec<&'a Conc>, statements: &'a [Conc]) -> Result<(), AllocError>
    ensures { OnOk result (map (λ c. c.now) all.new.items ≡ map (λ c. c.now) all.old.items ++ all_concurrent statements.now) }
{
    for conc in statements {
        put_concurrent(all, conc)?;
    }
    Ok(())
}

/// Puts a concurrent statement at the end, before those in it.
#[cycle(concurrent)]
fn put_concurrent<'a>(all: &mut Vec<&'a Conc>, conc: &'a Conc) -> Result<(), AllocError>
    ensures { OnOk result (map (λ c. c.now) all.new.items ≡ map (λ c. c.now) all.old.items ++ all_concurrent (conc.now ∷ [])) }
{
    walked_in_preorder();
    all.push(conc)?;
    put_in_concurrent(all, conc)
}

/// Puts the statements in a concurrent statement at the end: those of a block.
#[cycle(concurrent)]
fn put_in_concurrent<'a>(all: &mut Vec<&'a Conc>, conc: &'a Conc) -> Result<(), AllocError>
    ensures { OnOk result (map (λ c. c.now) all.new.items ≡ map (λ c. c.now) all.old.items ++ in_concurrent conc.now) }
{
    match conc {
        Conc::Block(_, _, block) => put_all_concurrent(all, block.statements.as_slice()),
        Conc::Process(_, _, _)
        | Conc::ComponentInstance(_, _)
        | Conc::Instance(_, _)
        | Conc::Call(_, _)
        | Conc::SignalAssignment(_, _) => Ok(()),
    }
}

/// Statements of a process with those in their `if`s, as one list in the order of the text. It takes time in proportion to the
/// statements.
pub fn all_sequential<'a>(
    alloc: Global,
    statements: &'a [Stmt],
) -> Result<Vec<&'a Stmt>, AllocError>
    ensures { IfOk result (λ all. map (λ s. s.now) all.items ≡ all_sequential statements.now) }
{
    let mut all = Vec::new(alloc);
    put_all_sequential(&mut all, statements)?;
    Ok(all)
}

/// Puts statements of a process at the end, each before those in it.
#[cycle(sequential)]
fn put_all_sequential<'a>(all: &mut Vec<&'a Stmt>, statements: &'a [Stmt]) -> Result<(), AllocError>
    ensures { OnOk result (map (λ s. s.now) all.new.items ≡ map (λ s. s.now) all.old.items ++ all_sequential statements.now) }
{
    for stmt in statements {
        put_sequential(all, stmt)?;
    }
    Ok(())
}

/// Puts a statement of a process at the end, before those in it.
#[cycle(sequential)]
fn put_sequential<'a>(all: &mut Vec<&'a Stmt>, stmt: &'a Stmt) -> Result<(), AllocError>
    ensures { OnOk result (map (λ s. s.now) all.new.items ≡ map (λ s. s.now) all.old.items ++ all_sequential (stmt.now ∷ [])) }
{
    walked_in_preorder();
    all.push(stmt)?;
    put_in_sequential(all, stmt)
}

/// Puts the statements in a statement of a process at the end: those of an `if`.
#[cycle(sequential)]
fn put_in_sequential<'a>(all: &mut Vec<&'a Stmt>, stmt: &'a Stmt) -> Result<(), AllocError>
    ensures { OnOk result (map (λ s. s.now) all.new.items ≡ map (λ s. s.now) all.old.items ++ in_sequential stmt.now) }
{
    match stmt {
        Stmt::If(_, statement) => put_in_if(all, statement),
        Stmt::VariableAssignment(_, _)
        | Stmt::SignalAssignment(_, _)
        | Stmt::Call(_, _)
        | Stmt::Null(_) => Ok(()),
    }
}

/// Puts the statements in an `if` at the end.
#[cycle(sequential)]
fn put_in_if<'a>(all: &mut Vec<&'a Stmt>, statement: &'a If) -> Result<(), AllocError>
    ensures { OnOk result (map (λ s. s.now) all.new.items ≡ map (λ s. s.now) all.old.items ++ in_if statement.now) }
{
    put_in_branches(all, statement.branches.as_slice())?;
    match &statement.otherwise {
        Some(statements) => put_all_sequential(all, statements.as_slice()),
        None => Ok(()),
    }
}

/// Puts the statements in branches at the end.
#[cycle(sequential)]
fn put_in_branches<'a>(all: &mut Vec<&'a Stmt>, branches: &'a [Branch]) -> Result<(), AllocError>
    ensures { OnOk result (map (λ s. s.now) all.new.items ≡ map (λ s. s.now) all.old.items ++ flat_map in_branch branches.now) }
{
    for branch in branches {
        put_all_sequential(all, branch.statements.as_slice())?;
    }
    Ok(())
}
