//! How many drivers there are.

ghost use Rattle.std.specs.Prelude.{◌≡◌, ◌+◌, ◌^◌, ◌<◌, IfOk, OnOk, length, map, sum_by};
ghost use Rattle.vital_kernel.specs.DesignNetworks as spec;

use std::alloc::{AllocError, Global};
use vital_typed_cells::{CellProcess, Checked, TypedCell};

/// There are fewer drivers than that.
const END_OF_DRIVERS: usize = 0x8000_0000;

/// A count with so many more. It fails as without memory where there are too many.
pub fn added(count: u32, more: usize) -> Result<u32, AllocError>
    ensures { IfOk result (λ sum. sum ≡ count + more) }
{
    if more > (u32::MAX - count) as usize {
        return Err(AllocError);
    }
    Ok(count + more as u32)
}

/// How many drivers come before those of the cells, of which there are so many. It fails as without memory where there are 2^31 or more of
/// both.
pub fn first_behind(stimulated: usize, of_cells: usize) -> Result<u32, AllocError>
    ensures first { IfOk result (λ first. first ≡ stimulated) }
    ensures few { OnOk result (stimulated + of_cells < 2 ^ 31) }
{
    if stimulated >= END_OF_DRIVERS || of_cells >= END_OF_DRIVERS - stimulated {
        return Err(AllocError);
    }
    Ok(stimulated as u32)
}

/// So many and one for each path delay of processes.
fn with_path_delays(first: u32, processes: &[CellProcess]) -> Result<u32, AllocError>
    ensures { IfOk result (λ count. count ≡ first + sum_by (λ p. length p.sections.path_delays) processes.now) }
{
    let mut count = first;
    for process in processes {
        count = added(count, process.sections.path_delays.as_slice().len())?;
    }
    Ok(count)
}

/// How many drivers an instance of a cell has: one for each wire delay and each path delay.
fn driver_count(cell: &TypedCell) -> Result<u32, AllocError>
    ensures { IfOk result (λ count. count ≡ spec.driver_count cell.now) }
{
    let wires = added(0, cell.wires.as_slice().len())?;
    with_path_delays(wires, cell.processes.as_slice())
}

/// How many drivers an instance of each cell has. It takes time in proportion to the statements of the cells.
pub fn driver_counts(alloc: Global, cells: &[Checked]) -> Result<Vec<u32>, AllocError>
    ensures { IfOk result (λ counts. counts.items ≡ map spec.driver_count cells.now) }
{
    let mut counts = Vec::new(alloc);
    for cell in cells {
        counts.push(driver_count(cell.cell())?)?;
    }
    Ok(counts)
}
