//! The names of a process.

ghost use Rattle.std.specs.Prelude.{◌≡◌, map, IfOk};
ghost use Rattle.std.specs.Option.{option_map};
ghost use Rattle.vital_names.specs.Declarations.{declared_in, first_named, lent};

use crate::declared::Declared;
use crate::declared_lists::declared_in;
use crate::first_names::{FirstNames, first_names};
use std::alloc::{AllocError, Global};
use std::marker::Model;
use vital_nodes::Process;

/// What a process declares, which is found by its names. Contracts see it as the process.
#[derive(Drop)]
pub struct ProcessNames<'a> {
    process: &'a Process,
    first: FirstNames<'a>,
}

impl<'a> Model for ProcessNames<'a> {
    ghost use Rattle.std.specs.Coded.{codes};
    ghost use Rattle.vital_names.specs.Kept.{HasFirst};
    ghost use Rattle.vital_names.specs.Declarations.{declared_in};
    ghost use Rattle.vital_nodes.specs.contracts.stmt.Process as of_process;
    ghost use Rattle.vital_nodes.specs.declared.stmt.Process.{Process};

    ghost Value = { Process };

    ghost coded = { Prim.hlevel (codes, of_process.the_row.coded) };

    ghost view = { λ names. names.process.now };

    ghost invariant = { λ names. HasFirst names.first (declared_in names.process.now.declarations) };
}

impl<'a> ProcessNames<'a> {
    /// The names of a process. It takes time and memory in proportion to its declarations.
    pub fn new(alloc: Global, process: &'a Process) -> Result<ProcessNames<'a>, AllocError>
        ensures { IfOk result (λ names. names ≡ process.now) }
    {
        let declared = declared_in(alloc, process.declarations.as_slice())?;
        let first = first_names(alloc, &declared)?;
        Ok(ProcessNames { process, first })
    }

    /// The process.
    pub fn process(&self) -> &'a Process
        ensures { result.now ≡ self.now }
    {
        self.process
    }

    /// What the process declares, in order.
    pub(crate) fn declared(&self, alloc: Global) -> Result<Vec<Declared<'a>>, AllocError>
        ensures { IfOk result (λ list. map lent list.items ≡ declared_in self.now.declarations) }
    {
        declared_in(alloc, self.process.declarations.as_slice())
    }

    /// What the process declares first for a name.
    pub(crate) fn first(&self, name: &[u8]) -> Option<Declared<'a>>
        ensures { option_map lent result ≡ first_named name.now (declared_in self.now.declarations) }
    {
        self.first.get(name).copied()
    }
}
