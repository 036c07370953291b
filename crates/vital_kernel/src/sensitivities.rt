//! The signals to which processes are sensitive.

ghost use Rattle.std.specs.Prelude.{◌≡◌, ◌++◌, [], ◌∷◌, IfOk, OnOk, drop, map, slice_get, take, unwrap_or};
ghost use Rattle.std.specs.List.{filter_map, flat_map};
ghost use Rattle.vital_kernel.specs.Sensitivities as spec;
ghost use Rattle.vital_kernel.specs.Networks.{lent_cell};
ghost use Rattle.vital_typed_cells.specs.Bits.{names_of, number_of};

use crate::lists::fitting;
use crate::network::NetCell;
use std::alloc::{AllocError, Global};
use vital_base::List;
use vital_typed_cells::{BitNumbers, CellProcess, TypedCell, WireDelay};

/// Puts the signal of a bit at the end, if there is one.
fn put_signal(wires: &[usize], bit: usize, signals: &mut Vec<u32>) -> Result<(), AllocError>
    ensures { OnOk result (signals.new.items ≡ signals.old.items ++ filter_map (slice_get wires.now) (bit ∷ [])) }
{
    if let Some(signal) = wires.get(bit) {
        signals.push(fitting(*signal)?)?;
    }
    Ok(())
}

/// The signals of bits.
fn signals_of(alloc: Global, wires: &[usize], bits: &[usize]) -> Result<List<u32>, AllocError>
    ensures { IfOk result (λ signals. signals ≡ filter_map (slice_get wires.now) bits.now) }
{
    let mut signals = Vec::new(alloc);
    for bit in bits {
        put_signal(wires, *bit, &mut signals)?;
    }
    Ok(List::new(signals))
}

/// Puts the signals of processes at the end.
fn put_processes(
    alloc: Global,
    wires: &[usize],
    processes: &[CellProcess],
    all: &mut Vec<List<u32>>,
) -> Result<(), AllocError>
    ensures { OnOk result (all.new.items ≡ all.old.items ++ map (λ p. filter_map (slice_get wires.now) p.sensitivity) processes.now) }
{
    for process in processes {
        all.push(signals_of(alloc, wires, process.sensitivity.as_slice())?)?;
    }
    Ok(())
}

/// Puts the signals of wire delays at the end: each is sensitive to its port.
fn put_delays(
    alloc: Global,
    wires: &[usize],
    bits: &BitNumbers<'_>,
    delays: &[WireDelay],
    all: &mut Vec<List<u32>>,
) -> Result<(), AllocError>
    ensures { OnOk result (all.new.items ≡ all.old.items ++ map (λ w. filter_map (slice_get wires.now) (unwrap_or (number_of bits.now w.port) 0 ∷ [])) delays.now) }
{
    for delay in delays {
        let bit = bits.number(delay.port.as_slice()).unwrap_or(0);
        all.push(signals_of(alloc, wires, &[bit])?)?;
    }
    Ok(())
}

/// Puts the signals of the wire delays of a cell at the end.
fn put_wires(
    alloc: Global,
    wires: &[usize],
    tree: &TypedCell,
    all: &mut Vec<List<u32>>,
) -> Result<(), AllocError>
    ensures { OnOk result (all.new.items ≡ all.old.items ++ map (λ w. filter_map (slice_get wires.now) (unwrap_or (number_of (names_of tree.now.ports tree.now.signals) w.port) 0 ∷ [])) tree.now.wires) }
{
    let delays = tree.wires.as_slice();
    if delays.is_empty() {
        return Ok(());
    }
    let bits = BitNumbers::new(alloc, tree.ports.as_slice(), tree.signals.as_slice())?;
    put_delays(alloc, wires, &bits, delays, all)
}

/// The first of processes.
fn first_of(processes: &[CellProcess], count: usize) -> &[CellProcess]
    ensures { result.now ≡ take count processes.now }
{
    &processes[..count.min(processes.len())]
}

/// Those behind the first.
fn others_of(processes: &[CellProcess], count: usize) -> &[CellProcess]
    ensures { result.now ≡ drop count processes.now }
{
    &processes[count.min(processes.len())..]
}

/// Puts the signals of the processes of an instance of a cell at the end.
fn put_cell(alloc: Global, cell: &NetCell<'_>, all: &mut Vec<List<u32>>) -> Result<(), AllocError>
    ensures { OnOk result (all.new.items ≡ all.old.items ++ spec.sensitivities_of (lent_cell cell.now)) }
{
    let tree = cell.cell.cell();
    let processes = tree.processes.as_slice();
    let count = tree.processes_before_wires;
    put_processes(alloc, cell.wires, first_of(processes, count), all)?;
    put_wires(alloc, cell.wires, tree, all)?;
    put_processes(alloc, cell.wires, others_of(processes, count), all)
}

/// For each process of instances of cells the signals to which it is sensitive. It takes time and memory in proportion to the statements of
/// the instances and to their wiring.
pub fn sensitivities_of(alloc: Global, cells: &[NetCell<'_>]) -> Result<Vec<List<u32>>, AllocError>
    ensures { IfOk result (λ all. all.items ≡ flat_map spec.sensitivities_of (map lent_cell cells.now)) }
{
    let mut all = Vec::new(alloc);
    for cell in cells {
        put_cell(alloc, cell, &mut all)?;
    }
    Ok(all)
}
