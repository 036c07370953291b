//! The limits that statements pass with all that they hold.

ghost use Rattle.std.specs.Prelude.{◌≡◌, ◌++◌, OnOk};
ghost use Rattle.std.specs.List.{flat_map};
ghost use Rattle.vital_limits.specs.WithinLimits.{limits_within, limits_within_all};
ghost use Rattle.vital_nodes.specs.Nodes.{Concurrent, Sequential, concurrents, names, parts_of_branch, parts_of_conc, parts_of_if, parts_of_instance, parts_of_signal_assignment, parts_of_stmt, sequentials};

use crate::node_limits::{put_of_concurrent, put_of_sequential};
use crate::passed::PassedLimit;
use crate::within_declarations::{put_within_decls, put_within_value};
use crate::within_expressions::{put_within_expr, put_within_items, put_within_name};
use std::alloc::AllocError;
use vital_names::LibraryNames;
use vital_nodes::{
    Branch, Conc, If, Instance, Reference, SignalAssignment, Stmt, walked_in_preorder,
};

/// Puts the limits of the parts of a signal assignment at the end.
fn put_in_signal_assignment(
    limits: &mut Vec<PassedLimit>,
    assignment: &SignalAssignment,
) -> Result<(), AllocError>
    ensures { OnOk result (limits.new.items ≡ limits.old.items ++ limits_within_all (parts_of_signal_assignment assignment.now)) }
{
    put_within_name(limits, &assignment.target)?;
    put_within_expr(limits, &assignment.value)?;
    put_within_value(limits, &assignment.after)
}

// ---- statements of processes

/// Puts the limits of statements of a process and of all that they hold at the end.
#[cycle(sequential)]
fn put_within_stmts(
    limits: &mut Vec<PassedLimit>,
    library: &LibraryNames<'_>,
    stmts: &[Stmt],
) -> Result<(), AllocError>
    ensures { OnOk result (limits.new.items ≡ limits.old.items ++ limits_within_all (sequentials stmts.now)) }
{
    for stmt in stmts {
        put_within_stmt(limits, library, stmt)?;
    }
    Ok(())
}

/// Puts the limits of a statement of a process and of all that it holds at the end.
#[cycle(sequential)]
fn put_within_stmt(
    limits: &mut Vec<PassedLimit>,
    library: &LibraryNames<'_>,
    stmt: &Stmt,
) -> Result<(), AllocError>
    ensures { OnOk result (limits.new.items ≡ limits.old.items ++ limits_within (Sequential stmt.now)) }
{
    walked_in_preorder();
    put_of_sequential(limits, library, stmt)?;
    put_in_stmt(limits, library, stmt)
}

/// Puts the limits of the parts of a statement of a process at the end.
#[cycle(sequential)]
fn put_in_stmt(
    limits: &mut Vec<PassedLimit>,
    library: &LibraryNames<'_>,
    stmt: &Stmt,
) -> Result<(), AllocError>
    ensures { OnOk result (limits.new.items ≡ limits.old.items ++ limits_within_all (parts_of_stmt stmt.now)) }
{
    match stmt {
        Stmt::VariableAssignment(_, assignment) => {
            put_within_name(limits, &assignment.target)?;
            put_within_expr(limits, &assignment.value)
        }
        Stmt::SignalAssignment(_, assignment) => put_in_signal_assignment(limits, assignment),
        Stmt::Call(_, name) => put_within_name(limits, name),
        Stmt::If(_, statement) => put_in_if(limits, library, statement),
        Stmt::Null(_) => Ok(()),
    }
}

/// Puts the limits of the parts of an `if` at the end.
#[cycle(sequential)]
fn put_in_if(
    limits: &mut Vec<PassedLimit>,
    library: &LibraryNames<'_>,
    statement: &If,
) -> Result<(), AllocError>
    ensures { OnOk result (limits.new.items ≡ limits.old.items ++ limits_within_all (parts_of_if statement.now)) }
{
    put_in_branches(limits, library, statement.branches.as_slice())?;
    match &statement.otherwise {
        Some(stmts) => put_within_stmts(limits, library, stmts.as_slice()),
        None => Ok(()),
    }
}

/// Puts the limits of the conditions and the statements of branches at the end.
#[cycle(sequential)]
fn put_in_branches(
    limits: &mut Vec<PassedLimit>,
    library: &LibraryNames<'_>,
    branches: &[Branch],
) -> Result<(), AllocError>
    ensures { OnOk result (limits.new.items ≡ limits.old.items ++ limits_within_all (flat_map parts_of_branch branches.now)) }
{
    for branch in branches {
        put_in_branch(limits, library, branch)?;
    }
    Ok(())
}

/// Puts the limits of the condition and the statements of a branch at the end.
#[cycle(sequential)]
fn put_in_branch(
    limits: &mut Vec<PassedLimit>,
    library: &LibraryNames<'_>,
    branch: &Branch,
) -> Result<(), AllocError>
    ensures { OnOk result (limits.new.items ≡ limits.old.items ++ limits_within_all (parts_of_branch branch.now)) }
{
    put_within_expr(limits, &branch.condition)?;
    put_within_stmts(limits, library, branch.statements.as_slice())
}

// ---- concurrent statements

/// Puts the limits of names and of all that they hold at the end.
fn put_within_names(limits: &mut Vec<PassedLimit>, list: &[Reference]) -> Result<(), AllocError>
    ensures { OnOk result (limits.new.items ≡ limits.old.items ++ limits_within_all (names list.now)) }
{
    for name in list {
        put_within_name(limits, name)?;
    }
    Ok(())
}

/// Puts the limits of the parts of an instance at the end.
fn put_in_instance(limits: &mut Vec<PassedLimit>, instance: &Instance) -> Result<(), AllocError>
    ensures { OnOk result (limits.new.items ≡ limits.old.items ++ limits_within_all (parts_of_instance instance.now)) }
{
    put_within_name(limits, &instance.unit)?;
    put_within_items(limits, instance.generics.as_slice())?;
    put_within_items(limits, instance.ports.as_slice())
}

/// Puts the limits of concurrent statements and of all that they hold at the end.
#[cycle(concurrent)]
pub fn put_within_concs(
    limits: &mut Vec<PassedLimit>,
    library: &LibraryNames<'_>,
    concs: &[Conc],
) -> Result<(), AllocError>
    ensures { OnOk result (limits.new.items ≡ limits.old.items ++ limits_within_all (concurrents concs.now)) }
{
    for conc in concs {
        put_within_conc(limits, library, conc)?;
    }
    Ok(())
}

/// Puts the limits of a concurrent statement and of all that it holds at the end.
#[cycle(concurrent)]
fn put_within_conc(
    limits: &mut Vec<PassedLimit>,
    library: &LibraryNames<'_>,
    conc: &Conc,
) -> Result<(), AllocError>
    ensures { OnOk result (limits.new.items ≡ limits.old.items ++ limits_within (Concurrent conc.now)) }
{
    walked_in_preorder();
    put_of_concurrent(limits, library, conc)?;
    put_in_conc(limits, library, conc)
}

/// Puts the limits of the parts of a concurrent statement at the end.
#[cycle(concurrent)]
fn put_in_conc(
    limits: &mut Vec<PassedLimit>,
    library: &LibraryNames<'_>,
    conc: &Conc,
) -> Result<(), AllocError>
    ensures { OnOk result (limits.new.items ≡ limits.old.items ++ limits_within_all (parts_of_conc conc.now)) }
{
    match conc {
        Conc::Process(_, _, process) => {
            put_within_names(limits, process.sensitivity.as_slice())?;
            put_within_decls(limits, library, process.declarations.as_slice())?;
            put_within_stmts(limits, library, process.statements.as_slice())
        }
        Conc::ComponentInstance(_, instance) | Conc::Instance(_, instance) => {
            put_in_instance(limits, instance)
        }
        Conc::Block(_, _, block) => {
            put_within_decls(limits, library, block.declarations.as_slice())?;
            put_within_concs(limits, library, block.statements.as_slice())
        }
        Conc::Call(_, name) => put_within_name(limits, name),
        Conc::SignalAssignment(_, assignment) => put_in_signal_assignment(limits, assignment),
    }
}
