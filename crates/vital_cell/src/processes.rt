//! The processes of a cell, which are made one after the other.

ghost use Rattle.std.specs.Prelude.{◌≡◌, ◌+◌, ◌*◌, ◌^◌, ◌<◌, ◌↔◌, ◌++◌, [], ◌∷◌, All, IfOk, IsTrue, OnOk, length, map};
ghost use Rattle.vital_cell.specs.Compiled as spec;
ghost use Rattle.vital_cell.specs.Short.{HasShort};
ghost use Rattle.vital_cell.specs.Execution as execution;
ghost use Rattle.vital_machine.specs.Fits.{IsProcess};
ghost use Rattle.vital_typed_cells.specs.Sound.{IsSound, IsSoundProcess};
ghost use Rattle.vital_cell.specs.Scopes.{lent};

use crate::constants::put_worths;
use crate::known::put_names;
use crate::laws::slots_begin;
use crate::name_numbers::NameNumbers;
use crate::numbered_steps::process_steps;
use crate::scope::Scope;
use crate::slots::first_slots;
use crate::variable_numbers::VariableNumbers;
use sqlite_items::Items;
use std::alloc::{AllocError, Global};
use vital_machine::{Executed, Process, WireStep};
use vital_sections::Sections;
use vital_typed_cells::{CellProcess, TypedCell, WireDelay};

/// The most bits, drivers and effects of a process that are numbered.
pub(crate) const MOST_NUMBERED: usize = 0xFFFF_FFFF;

/// A wire delay, whose driver has a number.
fn wire_process(scope: &Scope<'_, '_>, wire: &WireDelay, driver: u32) -> Process
    ensures { spec.IsMadeWire (lent scope.now) driver wire.now result }
{
    let step = WireStep {
        driver,
        port: scope.bits.number(wire.port.as_slice()).unwrap_or(0),
        delay: scope.delay(wire.generic.as_slice()),
    };
    Process {
        steps: Executed::Wire(step),
        first: Items::new(scope.alloc),
    }
}

/// Whether the effects of a process at an activation can be numbered: one of each check, and three of each path delay.
fn has_few_effects(sections: &Sections) -> bool
    ensures { IsTrue result ↔ (length sections.now.checks + 3 * length sections.now.path_delays < 2 ^ 32) }
{
    let checks = sections.checks.len();
    let delays = sections.path_delays.len();
    checks <= MOST_NUMBERED && delays <= (MOST_NUMBERED - checks) / 3
}

/// A process whose constants are known, and the first of whose drivers has a number.
fn process_made<'a>(
    values: &Scope<'_, 'a>,
    process: &'a CellProcess,
    driver: u32,
) -> Result<Process, AllocError>
    requires few { length (lent values.now).bits < 2 ^ 32 }
    requires drivers { driver + length process.now.sections.path_delays < 2 ^ 32 }
    requires sound { spec.IsSoundIn (lent values.now) process.now }
    ensures { IfOk result (λ made. spec.IsMadeProcess (lent values.now) (spec.with_variables (lent values.now) process.now.variables) driver process.now made) }
{
    let variables = process.variables.as_slice();
    let numbers = VariableNumbers::new(values.alloc, variables)?;
    let statements = Scope {
        variables: &numbers,
        ..*values
    };
    let sections = &process.sections;
    let steps = process_steps(&statements, sections, driver)?;
    let first = first_slots(values, &numbers, variables, sections.checks.as_slice())?;
    Ok(Process {
        steps: Executed::Process(steps),
        first,
    })
}

/// The same, which fails as without memory where the process has too many effects.
fn process_in<'a>(
    values: &Scope<'_, 'a>,
    process: &'a CellProcess,
    driver: u32,
) -> Result<Process, AllocError>
    requires few { length (lent values.now).bits < 2 ^ 32 }
    requires drivers { driver + length process.now.sections.path_delays < 2 ^ 32 }
    requires sound { spec.IsSoundIn (lent values.now) process.now }
    ensures made { IfOk result (λ made. spec.IsMadeProcess (lent values.now) (spec.with_variables (lent values.now) process.now.variables) driver process.now made) }
    ensures is { IfOk result (λ made. IsProcess made) }
{
    if !has_few_effects(&process.sections) {
        return Err(AllocError);
    }
    let made = process_made(values, process, driver)?;
    slots_begin();
    Ok(made)
}

/// The names of the constants that a process sees: those of its cell, and its own behind them.
fn names_of_constants<'a>(
    alloc: Global,
    cell: &'a TypedCell,
    process: &'a CellProcess,
) -> Result<Vec<&'a [u8]>, AllocError>
    ensures { IfOk result (λ names. map (λ name. name.now) names.items ≡ map (λ c. c.name) cell.now.constants ++ map (λ c. c.name) process.now.constants) }
{
    let mut names: Vec<&'a [u8]> = Vec::new(alloc);
    put_names(cell.constants.as_slice(), &mut names)?;
    put_names(process.constants.as_slice(), &mut names)?;
    Ok(names)
}

/// A process with no constants of its own, the first of whose drivers has a number, in the scope of its cell.
fn plain_process<'a>(
    scope: &Scope<'_, 'a>,
    process: &'a CellProcess,
    driver: u32,
) -> Result<Process, AllocError>
    requires few { length (lent scope.now).bits < 2 ^ 32 }
    requires drivers { driver + length process.now.sections.path_delays < 2 ^ 32 }
    requires none { length process.now.constants ≡ 0 }
    requires sound { spec.IsSoundIn (spec.values_in (lent scope.now) process.now) process.now }
    ensures made { IfOk result (λ made. spec.IsMade (lent scope.now) (driver, execution.Process' process.now) made) }
    ensures is { IfOk result (λ made. IsProcess made) }
{
    let made = process_in(scope, process, driver)?;
    Ok(made)
}

/// A process whose constants stand behind those of its cell, in the scope of the cell.
fn process_with_constants<'a>(
    scope: &Scope<'_, 'a>,
    cell: &'a TypedCell,
    process: &'a CellProcess,
    driver: u32,
) -> Result<Process, AllocError>
    requires few { length (lent scope.now).bits < 2 ^ 32 }
    requires drivers { driver + length process.now.sections.path_delays < 2 ^ 32 }
    requires known { spec.IsOfCell cell.now scope.now }
    requires sound { IsSound cell.now }
    requires sound_process { IsSoundProcess cell.now process.now }
    ensures made { IfOk result (λ made. spec.IsMade (lent scope.now) (driver, execution.Process' process.now) made) }
    ensures is { IfOk result (λ made. IsProcess made) }
{
    let names = NameNumbers::new(scope.alloc, names_of_constants(scope.alloc, cell, process)?)?;
    let mut worths = Vec::from_slice(scope.alloc, &scope.worths[..cell.constants.len()])?;
    let own = Scope {
        constants: &names,
        ..*scope
    };
    put_worths(&own, process.constants.as_slice(), &mut worths)?;
    let values = Scope {
        worths: worths.as_slice(),
        ..own
    };
    let made = process_in(&values, process, driver)?;
    Ok(made)
}

/// A process, the first of whose drivers has a number. The scope is that of its cell, in which no variable is seen.
fn cell_process<'a>(
    scope: &Scope<'_, 'a>,
    cell: &'a TypedCell,
    process: &'a CellProcess,
    driver: u32,
) -> Result<Process, AllocError>
    requires few { length (lent scope.now).bits < 2 ^ 32 }
    requires drivers { driver + length process.now.sections.path_delays < 2 ^ 32 }
    requires known { spec.IsOfCell cell.now scope.now }
    requires sound { IsSound cell.now }
    requires sound_process { IsSoundProcess cell.now process.now }
    ensures made { IfOk result (λ made. spec.IsMade (lent scope.now) (driver, execution.Process' process.now) made) }
    ensures is { IfOk result (λ made. IsProcess made) }
{
    if process.constants.len() == 0 {
        plain_process(scope, process, driver)
    } else {
        process_with_constants(scope, cell, process, driver)
    }
}

/// Processes with how many drivers they have together.
#[derive(Drop)]
pub(crate) struct Processes {
    pub(crate) processes: Vec<Process>,
    drivers: u32,
}

impl Processes {
    /// No process.
    pub(crate) fn new(alloc: Global) -> Processes
        ensures processes { result.processes.items ≡ [] }
        ensures drivers { result.drivers ≡ 0 }
    {
        Processes {
            processes: Vec::new(alloc),
            drivers: 0,
        }
    }

    /// The number of the first of so many more drivers. There is no room for more than can be numbered.
    fn first_driver(&self, drivers: usize) -> Result<u32, AllocError>
        ensures first { IfOk result (λ first. first ≡ self.now.drivers) }
        ensures room { IfOk result (λ first. first + drivers < 2 ^ 32) }
    {
        if drivers > MOST_NUMBERED - self.drivers as usize {
            return Err(AllocError);
        }
        Ok(self.drivers)
    }

    /// Puts one more at the end, which has so many drivers.
    fn put(&mut self, process: Process, drivers: usize) -> Result<(), AllocError>
        requires { self.old.drivers + drivers < 2 ^ 32 }
        ensures processes { OnOk result (self.new.processes.items ≡ self.old.processes.items ++ process ∷ []) }
        ensures drivers { OnOk result (self.new.drivers ≡ self.old.drivers + drivers) }
    {
        self.processes.push(process)?;
        self.drivers += drivers as u32;
        Ok(())
    }

    /// Puts a process of a cell at the end.
    fn put_cell_process<'a>(
        &mut self,
        scope: &Scope<'_, 'a>,
        cell: &'a TypedCell,
        process: &'a CellProcess,
    ) -> Result<(), AllocError>
        requires few { length (lent scope.now).bits < 2 ^ 32 }
        requires known { spec.IsOfCell cell.now scope.now }
        requires sound { IsSound cell.now }
        requires sound_process { IsSoundProcess cell.now process.now }
        ensures { OnOk result (spec.IsPut (lent scope.now) (execution.Process' process.now) self.old self.new) }
    {
        let drivers = process.sections.path_delays.len();
        let driver = self.first_driver(drivers)?;
        let made = cell_process(scope, cell, process, driver)?;
        self.put(made, drivers)?;
        Ok(())
    }

    /// Puts processes of a cell at the end.
    pub(crate) fn put_cell_processes<'a>(
        &mut self,
        scope: &Scope<'_, 'a>,
        cell: &'a TypedCell,
        processes: &'a [CellProcess],
    ) -> Result<(), AllocError>
        requires few { length (lent scope.now).bits < 2 ^ 32 }
        requires known { spec.IsOfCell cell.now scope.now }
        requires sound { IsSound cell.now }
        requires sound_processes { All (IsSoundProcess cell.now) processes.now }
        ensures { OnOk result (spec.ArePut (lent scope.now) (map (λ p. execution.Process' p) processes.now) self.old self.new) }
    {
        for process in processes {
            self.put_cell_process(scope, cell, process)?;
        }
        Ok(())
    }

    /// Puts a wire delay at the end.
    fn put_wire(&mut self, scope: &Scope<'_, '_>, wire: &WireDelay) -> Result<(), AllocError>
        requires { HasShort (lent scope.now) }
        ensures { OnOk result (spec.IsPut (lent scope.now) (execution.Wire wire.now) self.old self.new) }
    {
        let driver = self.first_driver(1)?;
        let made = wire_process(scope, wire, driver);
        self.put(made, 1)?;
        Ok(())
    }

    /// Puts wire delays at the end.
    pub(crate) fn put_wires(
        &mut self,
        scope: &Scope<'_, '_>,
        wires: &[WireDelay],
    ) -> Result<(), AllocError>
        requires { HasShort (lent scope.now) }
        ensures { OnOk result (spec.ArePut (lent scope.now) (map (λ w. execution.Wire w) wires.now) self.old self.new) }
    {
        for wire in wires {
            self.put_wire(scope, wire)?;
        }
        Ok(())
    }
}
