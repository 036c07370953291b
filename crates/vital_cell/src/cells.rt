//! A cell as a program.

ghost use Rattle.std.specs.Prelude.{◌≡◌, ◌^◌, ◌<◌, IfOk, length};
ghost use Rattle.vital_cell.specs.Compiled.{AreMade, IsCompiled, IsOfCell};
ghost use Rattle.vital_cell.specs.Programs as spec;
ghost use Rattle.vital_typed_cells.specs.Fits.{FitsCell};
ghost use Rattle.vital_cell.specs.Execution.{all_executed};
ghost use Rattle.vital_typed_cells.specs.Sound.{IsSound};
ghost use Rattle.vital_cell.specs.Scopes.{lent};

use crate::cell_laws::compiled_stands;
use crate::constants::put_worths;
use crate::known::{control_truths, known_names};
use crate::processes::{MOST_NUMBERED, Processes};
use crate::scope::Scope;
use sqlite_items::Items;
use std::alloc::{AllocError, Global};
use vital_machine::Program;
use vital_timing::Delay;
use vital_typed_cells::{Checked, TypedCell, Values};

/// What a cell executes, in whose scope the constants of the architecture are known: the wire delays stand among the processes.
fn all_processes<'a>(scope: &Scope<'_, 'a>, cell: &'a TypedCell) -> Result<Processes, AllocError>
    requires few { length (lent scope.now).bits < 2 ^ 32 }
    requires known { IsOfCell cell.now scope.now }
    requires sound { IsSound cell.now }
    ensures { IfOk result (λ made. AreMade (lent scope.now) (all_executed cell.now) made) }
{
    let processes = cell.processes.as_slice();
    let before = cell.processes_before_wires;
    let mut made = Processes::new(scope.alloc);
    made.put_cell_processes(scope, cell, &processes[..before])?;
    made.put_wires(scope, cell.wires.as_slice())?;
    made.put_cell_processes(scope, cell, &processes[before..])?;
    Ok(made)
}

/// A cell as a program, in whose scope the constants of the architecture are known.
fn compile_in<'a>(scope: &Scope<'_, 'a>, cell: &'a TypedCell) -> Result<Program, AllocError>
    requires known { IsOfCell cell.now scope.now }
    requires sound { IsSound cell.now }
    ensures { IfOk result (λ program. IsCompiled (lent scope.now) cell.now program) }
{
    let ports = cell.ports.len();
    let signals = cell.signals.len();
    if ports > MOST_NUMBERED || signals > MOST_NUMBERED - ports {
        return Err(AllocError);
    }
    let made = all_processes(scope, cell)?;
    let checks_on = scope.controls.timing_checks_on;
    Ok(Program::new(Items::from_vec(made.processes), ports + signals, checks_on))
}

/// A sound cell as a program, with delays for its timing generics.
fn compile_cell(alloc: Global, cell: &TypedCell, values: &[Delay]) -> Result<Program, AllocError>
    requires sound { IsSound cell.now }
    requires fit { FitsCell cell.now values.now }
    ensures { IfOk result (λ program. spec.StandsFor program cell.now values.now) }
{
    let known = known_names(alloc, cell, values)?;
    let packages = known.packages.as_slice();
    let delays = known.delays.as_slice();
    let controls = control_truths(packages, cell.controls);
    let outside = Scope {
        alloc,
        bits: &known.bits,
        variables: &known.no_variables,
        constants: &known.constants,
        worths: &[],
        packages,
        generics: &known.generics,
        delays,
        controls,
    };
    let constants = cell.constants.as_slice();
    let mut worths = Vec::new(alloc);
    put_worths(&outside, constants, &mut worths)?;
    let scope = Scope {
        worths: worths.as_slice(),
        ..outside
    };
    let program = compile_in(&scope, cell)?;
    compiled_stands();
    Ok(program)
}

/// A checked cell as a program, with delays for its timing generics: one for each, with as many times as its type has, each of at most
/// 2^50 fs. The program stands for the cell: its processes do what the statements of the cell do, one after the other (IEEE 1076.4;
/// IEEE 1076-1993, 9.2). It takes time and memory in proportion to the text of the cell and to the packages of its library, and for each
/// process with constants of its own to those of the architecture. It fails as without memory where the cell has 2^32 or more bits, or
/// drivers, or where one of its processes may have as many effects at an activation.
pub fn compile(alloc: Global, checked: &Checked, values: &Values) -> Result<Program, AllocError>
    requires { FitsCell checked.now values.now }
    ensures { IfOk result (λ program. spec.StandsFor program checked.now values.now) }
{
    let program = compile_cell(alloc, checked.cell(), values.as_slice())?;
    Ok(program)
}
