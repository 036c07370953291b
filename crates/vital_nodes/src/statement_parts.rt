//! The parts of statements.

ghost use Rattle.std.specs.Prelude.{◌≡◌, ◌++◌, map, OnOk};
ghost use Rattle.std.specs.List.{flat_map};
ghost use Rattle.vital_nodes.specs.Nodes.{parts_of_branch, parts_of_conc, parts_of_if, parts_of_instance, parts_of_signal_assignment, parts_of_stmt};
ghost use Rattle.vital_nodes.specs.Seen.{seen};

use crate::node::Node;
use crate::put::{put, put_all, put_if_there};
use crate::stmt::{Branch, Conc, If, Instance, SignalAssignment, Stmt};
use std::alloc::AllocError;

/// Puts the parts of a signal assignment at the end.
fn put_parts_of_signal_assignment<'a>(
    nodes: &mut Vec<Node<'a>>,
    assignment: &'a SignalAssignment,
) -> Result<(), AllocError>
    ensures { OnOk result (map seen nodes.new.items ≡ map seen nodes.old.items ++ parts_of_signal_assignment assignment.now) }
{
    put(nodes, &assignment.target)?;
    put(nodes, &assignment.value)?;
    put_if_there(nodes, &assignment.after)
}

/// Puts the conditions and the statements of branches at the end.
fn put_parts_of_branches<'a>(
    nodes: &mut Vec<Node<'a>>,
    branches: &'a [Branch],
) -> Result<(), AllocError>
    ensures { OnOk result (map seen nodes.new.items ≡ map seen nodes.old.items ++ flat_map parts_of_branch branches.now) }
{
    for branch in branches {
        put(nodes, &branch.condition)?;
        put_all(nodes, branch.statements.as_slice())?;
    }
    Ok(())
}

/// Puts the parts of an `if` at the end.
fn put_parts_of_if<'a>(nodes: &mut Vec<Node<'a>>, statement: &'a If) -> Result<(), AllocError>
    ensures { OnOk result (map seen nodes.new.items ≡ map seen nodes.old.items ++ parts_of_if statement.now) }
{
    put_parts_of_branches(nodes, statement.branches.as_slice())?;
    match &statement.otherwise {
        Some(statements) => put_all(nodes, statements.as_slice()),
        None => Ok(()),
    }
}

/// Puts the parts of a statement of a process at the end.
pub fn put_parts_of_stmt<'a>(nodes: &mut Vec<Node<'a>>, stmt: &'a Stmt) -> Result<(), AllocError>
    ensures { OnOk result (map seen nodes.new.items ≡ map seen nodes.old.items ++ parts_of_stmt stmt.now) }
{
    match stmt {
        Stmt::VariableAssignment(_, assignment) => {
            put(nodes, &assignment.target)?;
            put(nodes, &assignment.value)
        }
        Stmt::SignalAssignment(_, assignment) => put_parts_of_signal_assignment(nodes, assignment),
        Stmt::Call(_, name) => put(nodes, name),
        Stmt::If(_, statement) => put_parts_of_if(nodes, statement),
        Stmt::Null(_) => Ok(()),
    }
}

/// Puts the parts of an instance at the end.
fn put_parts_of_instance<'a>(
    nodes: &mut Vec<Node<'a>>,
    instance: &'a Instance,
) -> Result<(), AllocError>
    ensures { OnOk result (map seen nodes.new.items ≡ map seen nodes.old.items ++ parts_of_instance instance.now) }
{
    put(nodes, &instance.unit)?;
    put_all(nodes, instance.generics.as_slice())?;
    put_all(nodes, instance.ports.as_slice())
}

/// Puts the parts of a concurrent statement at the end.
pub fn put_parts_of_conc<'a>(nodes: &mut Vec<Node<'a>>, conc: &'a Conc) -> Result<(), AllocError>
    ensures { OnOk result (map seen nodes.new.items ≡ map seen nodes.old.items ++ parts_of_conc conc.now) }
{
    match conc {
        Conc::Process(_, _, process) => {
            put_all(nodes, process.sensitivity.as_slice())?;
            put_all(nodes, process.declarations.as_slice())?;
            put_all(nodes, process.statements.as_slice())
        }
        Conc::ComponentInstance(_, instance) | Conc::Instance(_, instance) => {
            put_parts_of_instance(nodes, instance)
        }
        Conc::Block(_, _, block) => {
            put_all(nodes, block.declarations.as_slice())?;
            put_all(nodes, block.statements.as_slice())
        }
        Conc::Call(_, name) => put(nodes, name),
        Conc::SignalAssignment(_, assignment) => put_parts_of_signal_assignment(nodes, assignment),
    }
}
