//! The statements of a cell, and the names of its processes.

ghost use Rattle.std.specs.Prelude.{◌≡◌, [], ◌∷◌, ◌++◌, map, IfOk, OnOk};
ghost use Rattle.std.specs.List.{filter_map};
ghost use Rattle.std.specs.Option.{option_copied};
ghost use Rattle.vital_uses.specs.Statements.{process, processes, statements};

use std::alloc::{AllocError, Global};
use std::marker::Model;
use vital_names::ProcessNames;
use vital_nodes::{Arch, Conc, Process, all_concurrent};

/// The concurrent statements of an architecture, if there is one, and the names of its processes. It is made once for a cell, and
/// lent to all that stands in the processes. Contracts see it as the architecture.
#[derive(Drop)]
pub struct CellStatements<'a> {
    arch: Option<&'a Arch>,
    /// All concurrent statements, those in blocks included, in order.
    statements: Vec<&'a Conc>,
    /// The names of each process, in order.
    processes: Vec<ProcessNames<'a>>,
}

impl<'a> Model for CellStatements<'a> {
    ghost use Rattle.std.specs.Prelude.{◌≡◌, map, Option};
    ghost use Rattle.std.specs.Coded.{codes};
    ghost use Rattle.std.specs.Option.{option_copied};
    ghost use Rattle.vital_nodes.specs.contracts.unit.Arch as of_arch;
    ghost use Rattle.vital_nodes.specs.declared.unit.Arch.{Arch};
    ghost use Rattle.vital_uses.specs.Statements as spec;

    ghost Value = { Option Arch };

    ghost coded = { Prim.hlevel (codes, of_arch.the_row.coded) };

    ghost view = { λ s. option_copied s.arch };

    ghost invariant = { λ s. (map (λ c. c.now) s.statements.items ≡ spec.statements (option_copied s.arch)) × (s.processes.items ≡ spec.processes (option_copied s.arch)) };
}

impl<'a> CellStatements<'a> {
    /// The statements of an architecture. It takes time and memory in proportion to its nodes.
    pub fn new(alloc: Global, arch: Option<&'a Arch>) -> Result<CellStatements<'a>, AllocError>
        ensures { IfOk result (λ s. s ≡ option_copied arch.entry) }
    {
        let statements = statements_of(alloc, arch)?;
        let processes = processes_among(alloc, &statements)?;
        Ok(CellStatements {
            arch,
            statements,
            processes,
        })
    }

    /// All concurrent statements, those in blocks included, in order.
    pub fn statements(&self) -> &[&'a Conc]
        ensures { map (λ c. c.now) result.now ≡ statements self.now }
    {
        self.statements.as_slice()
    }

    /// The names of each process, in order.
    pub fn processes(&self) -> &[ProcessNames<'a>]
        ensures { result.now ≡ processes self.now }
    {
        self.processes.as_slice()
    }
}

/// All concurrent statements of an architecture, if there is one.
fn statements_of<'a>(alloc: Global, arch: Option<&'a Arch>) -> Result<Vec<&'a Conc>, AllocError>
    ensures { IfOk result (λ all. map (λ c. c.now) all.items ≡ statements (option_copied arch.entry)) }
{
    match arch {
        Some(arch) => all_concurrent(alloc, arch.statements.as_slice()),
        None => Ok(Vec::new(alloc)),
    }
}

/// The names of the processes among concurrent statements.
fn processes_among<'a>(
    alloc: Global,
    statements: &[&'a Conc],
) -> Result<Vec<ProcessNames<'a>>, AllocError>
    ensures { IfOk result (λ processes. processes.items ≡ filter_map process (map (λ c. c.now) statements.now)) }
{
    let mut processes = Vec::new(alloc);
    for conc in statements {
        put_process(alloc, &mut processes, conc)?;
    }
    Ok(processes)
}

/// Puts the names of a concurrent statement at the end if it is a process.
fn put_process<'a>(
    alloc: Global,
    processes: &mut Vec<ProcessNames<'a>>,
    conc: &'a Conc,
) -> Result<(), AllocError>
    ensures { OnOk result (processes.new.items ≡ processes.old.items ++ filter_map process (conc.now ∷ [])) }
{
    if let Some(process) = process(conc) {
        processes.push(ProcessNames::new(alloc, process)?)?;
    }
    Ok(())
}

/// The process that a concurrent statement is.
fn process(conc: &Conc) -> Option<&Process>
    ensures { option_copied result ≡ process conc.now }
{
    match conc {
        Conc::Process(_, _, process) => Some(process),
        _ => None,
    }
}
