//! The processes of a cell as numbered steps.

ghost use Rattle.std.specs.Prelude.{◌≡◌, ◌<◌, ◌≤◌, ◌^◌, All, length};
ghost use Rattle.vital_machine.specs.Fits as spec;

use crate::slot::Slot;
use crate::steps::{Executed, PathDelayStep};
use sqlite_items::Items;
use std::marker::Model;

/// What a process is and what its variables begin as.
#[derive(Drop)]
pub struct Process {
    pub steps: Executed,
    pub first: Items<Slot>,
}

/// The processes of a cell, which are executed while a run goes on: no name is looked up in them. Contracts see it as the record of them,
/// of the number of the cell's bits and of whether timing checks are executed.
#[derive(Drop)]
pub struct Program {
    processes: Items<Process>,
    bits: usize,
    timing_checks_on: bool,
    most_effects: u32,
    most_paths: usize,
}

impl Model for Program {
    ghost use Rattle.std.specs.Prelude.{◌≤◌, All};
    ghost use Rattle.std.specs.Coded.{codes};
    ghost use Rattle.vital_machine.specs.contracts.program.Process as process;
    ghost use Rattle.vital_machine.specs.Fits.{AreProcesses, HasRoom, most_effects_of};
    ghost use Rattle.vital_machine.specs.Programs.{ProgramParts};

    ghost Value = { ProgramParts };

    ghost coded = { Prim.hlevel (codes, process.the_row.coded) };

    ghost view = { λ p. record { processes = p.processes; bits = p.bits; timing_checks_on = p.timing_checks_on } };

    ghost invariant = { λ a. AreProcesses a.processes
        × All (λ p. most_effects_of p.steps ≤ a.most_effects) a.processes
        × All (λ p. HasRoom a.most_paths p.steps) a.processes };
}

/// How many effects an activation of a process has at most: one of each check, and a message and two assignments of each path delay.
fn effects_of(steps: &Executed) -> u32
    requires { spec.most_effects_of steps.now < 2 ^ 32 }
    ensures { result ≡ spec.most_effects_of steps.now }
{
    match steps {
        Executed::Wire(_) => 1,
        Executed::Process(steps) => {
            steps.checks.len() as u32 + 3 * steps.path_delays.len() as u32
        }
    }
}

/// The most effects that an activation of one of some processes has.
fn most_effects(processes: &[Process]) -> u32
    requires { spec.AreProcesses processes.now }
    ensures { All (λ p. spec.most_effects_of p.steps ≤ result) processes.now }
{
    let mut most = 0;
    for process in processes {
        most = effects_of(&process.steps).max(most);
    }
    most
}

/// The most paths of one of some path delays.
fn paths_of_delays(delays: &[PathDelayStep]) -> usize
    ensures { All (λ d. length d.paths ≤ result) delays.now }
{
    let mut most = 0;
    for delay in delays {
        most = delay.paths.len().max(most);
    }
    most
}

/// The most paths of a path delay of a process.
fn paths_of(steps: &Executed) -> usize
    ensures { spec.HasRoom result steps.now }
{
    match steps {
        Executed::Wire(_) => 0,
        Executed::Process(steps) => paths_of_delays(steps.path_delays.as_slice()),
    }
}

/// The most paths of a path delay of one of some processes.
fn most_paths(processes: &[Process]) -> usize
    ensures { All (λ p. spec.HasRoom result p.steps) processes.now }
{
    let mut most = 0;
    for process in processes {
        most = paths_of(&process.steps).max(most);
    }
    most
}

impl Program {
    /// The program of processes whose delays are at most 2^50 fs, each of which has fewer than 2^32 effects at an activation, and whose
    /// variables begin with no time above 0; the ports and the internal signals of its cell have so many bits.
    pub fn new(processes: Items<Process>, bits: usize, timing_checks_on: bool) -> Program
        requires { spec.AreProcesses processes }
        ensures { result ≡ record { processes = processes; bits = bits; timing_checks_on = timing_checks_on } }
    {
        let most_effects = most_effects(processes.as_slice());
        let most_paths = most_paths(processes.as_slice());
        Program {
            processes,
            bits,
            timing_checks_on,
            most_effects,
            most_paths,
        }
    }

    /// The processes, in order.
    pub(crate) fn processes(&self) -> &[Process]
        ensures processes { result.now ≡ self.now.processes }
        ensures are { spec.AreProcesses result.now }
    {
        self.processes.as_slice()
    }

    /// How many bits the ports and the internal signals have.
    pub(crate) fn bits(&self) -> usize
        ensures { result ≡ self.now.bits }
    {
        self.bits
    }

    /// Whether timing checks are executed.
    pub(crate) fn timing_checks_on(&self) -> bool
        ensures { result ≡ self.now.timing_checks_on }
    {
        self.timing_checks_on
    }

    /// The most effects that an activation of a process has.
    pub(crate) fn most_effects(&self) -> u32
        ensures { All (λ p. spec.most_effects_of p.steps ≤ result) self.now.processes }
    {
        self.most_effects
    }

    /// The most paths of a path delay.
    pub(crate) fn most_paths(&self) -> usize
        ensures { All (λ p. spec.HasRoom result p.steps) self.now.processes }
    {
        self.most_paths
    }
}
