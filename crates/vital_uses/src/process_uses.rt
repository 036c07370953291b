//! The names that stand in a process.

ghost use Rattle.std.specs.Prelude.{◌≡◌, map, IfOk};
ghost use Rattle.vital_nodes.specs.Statements.{all_sequential};
ghost use Rattle.vital_uses.specs.Asked.{asked, lent_asked};
ghost use Rattle.vital_uses.specs.Nodes.{nodes_before_statements, nodes_of_process, nodes_of_statements};
ghost use Rattle.vital_uses.specs.Sited.{lent_node};

use crate::asked::{Asked, asked_at_both};
use crate::nodes::{nodes_before_statements, nodes_of_statements};
use crate::sited::SitedNode;
use std::alloc::{AllocError, Global};
use std::marker::Model;
use vital_names::{CellNames, ProcessNames};
use vital_nodes::{Stmt, all_sequential};

/// A process of a cell, its statements, and what its names mean. Contracts see it as the cell and the process.
#[derive(Drop)]
pub struct ProcessUses<'a> {
    names: &'a CellNames<'a>,
    process: &'a ProcessNames<'a>,
    /// All statements, those in `if`s included, in order.
    statements: Vec<&'a Stmt>,
    /// The nodes in what it declares, and of the names of its list.
    nodes_before: Vec<SitedNode<'a>>,
    /// The nodes of its statements.
    nodes_stated: Vec<SitedNode<'a>>,
    /// What is asked at all of these, in order.
    asked: Vec<Asked<'a>>,
}

impl<'a> Model for ProcessUses<'a> {
    ghost use Rattle.std.specs.Prelude.{◌≡◌, map};
    ghost use Rattle.std.specs.Coded.{codes};
    ghost use Rattle.vital_nodes.specs.contracts.stmt.Process as of_process;
    ghost use Rattle.vital_nodes.specs.contracts.unit.Arch as of_arch;
    ghost use Rattle.vital_nodes.specs.contracts.unit.Entity as of_entity;
    ghost use Rattle.vital_nodes.specs.contracts.unit.Units as of_units;
    ghost use Rattle.vital_nodes.specs.declared.stmt.Process.{Process};
    ghost use Rattle.vital_names.specs.Sites.{Cell};
    ghost use Rattle.vital_nodes.specs.Statements.{all_sequential};
    ghost use Rattle.vital_uses.specs.Asked as spec;
    ghost use Rattle.vital_uses.specs.Nodes as nodes;
    ghost use Rattle.vital_uses.specs.Sited.{lent_node};

    ghost Value = { Cell × Process };

    ghost coded = { Prim.hlevel (codes, of_units.the_row.coded, of_entity.the_row.coded, of_arch.the_row.coded, of_process.the_row.coded) };

    ghost view = { λ u. (u.names.now, u.process.now) };

    ghost invariant = { λ u. (map (λ s. s.now) u.statements.items ≡ all_sequential u.process.now.statements) × (map lent_node u.nodes_before.items ≡ nodes.nodes_before_statements u.process.now) × (map lent_node u.nodes_stated.items ≡ nodes.nodes_of_statements u.process.now) × (map spec.lent_asked u.asked.items ≡ spec.asked u.names.now (nodes.nodes_of_process u.process.now)) };
}

impl<'a> ProcessUses<'a> {
    /// A process of a cell with what its names mean. It takes time and memory in proportion to its nodes.
    pub fn new(
        alloc: Global,
        names: &'a CellNames<'a>,
        process: &'a ProcessNames<'a>,
    ) -> Result<ProcessUses<'a>, AllocError>
        ensures { IfOk result (λ uses. uses ≡ (names.now, process.now)) }
    {
        let statements = all_sequential(alloc, process.process().statements.as_slice())?;
        let nodes_before = nodes_before_statements(alloc, process)?;
        let nodes_stated = nodes_of_statements(alloc, process)?;
        let asked = asked_at_both(alloc, names, &nodes_before, &nodes_stated)?;
        Ok(ProcessUses {
            names,
            process,
            statements,
            nodes_before,
            nodes_stated,
            asked,
        })
    }

    /// The names of the cell.
    pub fn names(&self) -> &'a CellNames<'a>
        ensures { result.now ≡ self.now.0 }
    {
        self.names
    }

    /// The process.
    pub fn process(&self) -> &'a ProcessNames<'a>
        ensures { result.now ≡ self.now.1 }
    {
        self.process
    }

    /// All statements of the process, those in `if`s included, in order.
    pub fn statements(&self) -> &[&'a Stmt]
        ensures { map (λ s. s.now) result.now ≡ all_sequential self.now.1.statements }
    {
        self.statements.as_slice()
    }

    /// The nodes in what it declares, and of the names of its list, in order.
    pub fn nodes_before_statements(&self) -> &[SitedNode<'a>]
        ensures { map lent_node result.now ≡ nodes_before_statements self.now.1 }
    {
        self.nodes_before.as_slice()
    }

    /// The nodes of its statements, in order.
    pub fn nodes_of_statements(&self) -> &[SitedNode<'a>]
        ensures { map lent_node result.now ≡ nodes_of_statements self.now.1 }
    {
        self.nodes_stated.as_slice()
    }

    /// What is asked at the nodes of the process, in order.
    pub fn asked(&self) -> &[Asked<'a>]
        ensures { map lent_asked result.now ≡ asked self.now.0 (nodes_of_process self.now.1) }
    {
        self.asked.as_slice()
    }
}
