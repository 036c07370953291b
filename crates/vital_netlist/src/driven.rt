//! What the statements of cells drive.

ghost use Rattle.std.specs.Prelude.{◌≡◌, [], ◌∷◌, ◌++◌, drop, map, take, IfOk, OnOk};
ghost use Rattle.std.specs.List.{filter_map, flat_map};
ghost use Rattle.vital_netlist.specs.CellDrivers as spec;
ghost use Rattle.vital_typed_cells.specs.Bits.{number_of};

use std::alloc::{AllocError, Global};
use vital_typed_cells::{BitNumbers, CellProcess, TypedCell, WireDelay};

/// Puts the number of the bit of a name at the end, if there is one.
fn put_number(bits: &BitNumbers<'_>, name: &[u8], driven: &mut Vec<usize>) -> Result<(), AllocError>
    ensures { OnOk result (driven.new.items ≡ driven.old.items ++ filter_map (number_of bits.now) (name.now ∷ [])) }
{
    if let Some(number) = bits.number(name) {
        driven.push(number)?;
    }
    Ok(())
}

/// Puts the ports that the path delays of a process drive.
fn put_process(
    bits: &BitNumbers<'_>,
    process: &CellProcess,
    driven: &mut Vec<usize>,
) -> Result<(), AllocError>
    ensures { OnOk result (driven.new.items ≡ driven.old.items ++ filter_map (number_of bits.now) (spec.driven_by process.now)) }
{
    for path_delay in process.sections.path_delays.as_slice() {
        put_number(bits, path_delay.out_signal.as_slice(), driven)?;
    }
    Ok(())
}

/// Puts the ports that the path delays of processes drive.
fn put_processes(
    bits: &BitNumbers<'_>,
    processes: &[CellProcess],
    driven: &mut Vec<usize>,
) -> Result<(), AllocError>
    ensures { OnOk result (driven.new.items ≡ driven.old.items ++ filter_map (number_of bits.now) (flat_map spec.driven_by processes.now)) }
{
    for process in processes {
        put_process(bits, process, driven)?;
    }
    Ok(())
}

/// Puts the signals that wire delays drive.
fn put_wires(
    bits: &BitNumbers<'_>,
    wires: &[WireDelay],
    driven: &mut Vec<usize>,
) -> Result<(), AllocError>
    ensures { OnOk result (driven.new.items ≡ driven.old.items ++ filter_map (number_of bits.now) (map (λ w. w.signal) wires.now)) }
{
    for wire in wires {
        put_number(bits, wire.signal.as_slice(), driven)?;
    }
    Ok(())
}

/// The first of processes.
fn first_of(processes: &[CellProcess], count: usize) -> &[CellProcess]
    ensures { result.now ≡ take count processes.now }
{
    &processes[..count.min(processes.len())]
}

/// Those behind the first.
fn others_of(processes: &[CellProcess], count: usize) -> &[CellProcess]
    ensures { result.now ≡ drop count processes.now }
{
    &processes[count.min(processes.len())..]
}

/// The numbers of the bits that the statements of a cell drive, by the names of the bits.
fn driven_in(
    alloc: Global,
    bits: &BitNumbers<'_>,
    cell: &TypedCell,
) -> Result<Vec<usize>, AllocError>
    ensures { IfOk result (λ found. found.items ≡ filter_map (number_of bits.now) (spec.driven cell.now)) }
{
    let processes = cell.processes.as_slice();
    let count = cell.processes_before_wires;
    let mut driven = Vec::new(alloc);
    put_processes(bits, first_of(processes, count), &mut driven)?;
    put_wires(bits, cell.wires.as_slice(), &mut driven)?;
    put_processes(bits, others_of(processes, count), &mut driven)?;
    Ok(driven)
}

/// The numbers of the bits that the statements of a cell drive, in order: each wire delay a signal, and each path delay a port. It takes time
/// in proportion to its statements and bits.
pub fn driven_numbers(alloc: Global, cell: &TypedCell) -> Result<Vec<usize>, AllocError>
    ensures { IfOk result (λ numbers. numbers.items ≡ spec.driven_numbers cell.now) }
{
    let bits = BitNumbers::new(alloc, cell.ports.as_slice(), cell.signals.as_slice())?;
    driven_in(alloc, &bits, cell)
}
