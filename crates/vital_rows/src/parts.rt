//! A run of stimuli part by part, by the calls of the kernel.

ghost use Rattle.std.specs.Prelude.{◌≡◌, ◌<◌, ◌-◌, ◌^◌, All, IfOk, false, map, not, true};
ghost use Rattle.std.specs.List.Sorted.{IsNonDecreasing};
ghost use Rattle.vital_kernel.specs.Kernels.{IsDriven, IsToCome};
ghost use Rattle.vital_stim.specs.Stimuli.{Fits};

use super::program::sink_of;
use std::alloc::{AllocError, Global};
use vital_agenda::QueueAgenda;
use vital_base::MemSink;
use vital_kernel::{Kernel, Network};
use vital_report::{PrintError, Printer, Reporter};
use vital_row_files::{Answer, GivenFile, Row};
use vital_stim::{StimError, StimLine, Stimuli, read_stim};

/// The most bytes of stimuli, the latest time of a cycle in femtoseconds, and the most cycles and delta cycles that are asked for.
const MOST_BYTES: usize = 16_777_216;

const LATEST: u64 = 1 << 60;

const MOST_CYCLES: usize = 1_000;

const MOST_DELTAS: u64 = 1_000;

/// Does the next part of a run with a printer of its own, of which nothing is written later. Puts what the sink got, and a line that says whether the
/// part was done. Returns whether it was.
fn put_part(
    alloc: Global,
    kernel: &mut Kernel<'_, QueueAgenda>,
    sink: &mut MemSink,
    bytes: &mut Vec<u8>,
) -> Result<bool, AllocError>
    requires not_given_up { kernel.old.is_given_up ≡ false }
    requires to_come { IsToCome kernel.old }
    requires delta { kernel.old.state.delta < 2 ^ 32 - 1 }
    ensures { IfOk result (λ done. kernel.new.is_given_up ≡ not done) }
{
    let before = sink.bytes().len();
    let mut printer = Printer::new(Reporter::new(alloc)?, sink);
    let outcome = kernel.cycle(&mut printer);
    let sink = printer.into_sink();
    bytes.extend_from_slice(sink.bytes().get(before..).unwrap_or(&[]))?;
    match outcome {
        Ok(()) => {
            bytes.extend_from_slice(b"done\n")?;
            Ok(true)
        }
        Err(PrintError::WriteFault) => {
            bytes.extend_from_slice(b"fault\n")?;
            Ok(false)
        }
        Err(PrintError::NoMemory) => Err(AllocError),
    }
}

/// Whether a cycle is to come within what is asked for.
fn is_to_come(kernel: &Kernel<'_, QueueAgenda>) -> bool
    ensures to_come { result ≡ true → IsToCome kernel.now }
    ensures delta { result ≡ true → kernel.now.state.delta < 2 ^ 32 - 1 }
{
    match kernel.next_time() {
        Some(time) => time <= LATEST && kernel.delta() < MOST_DELTAS,
        None => false,
    }
}

/// Puts the parts of a run that has not begun.
fn put_parts(
    alloc: Global,
    kernel: &mut Kernel<'_, QueueAgenda>,
    sink: &mut MemSink,
    bytes: &mut Vec<u8>,
) -> Result<(), AllocError>
    requires unbegun { kernel.old.is_begun ≡ false }
    requires not_given_up { kernel.old.is_given_up ≡ false }
    requires delta { kernel.old.state.delta ≡ 0 }
{
    if !put_part(alloc, kernel, sink, bytes)? {
        return Ok(());
    }
    for _ in 0..MOST_CYCLES {
        if !is_to_come(kernel) {
            break;
        }
        if !put_part(alloc, kernel, sink, bytes)? {
            break;
        }
    }
    Ok(())
}

/// Puts the parts of a run of a network with stimuli.
fn put_run(
    alloc: Global,
    network: &Network<'_>,
    lines: &[StimLine],
    sink: &mut MemSink,
    bytes: &mut Vec<u8>,
) -> Result<(), AllocError>
    requires driven { All (IsDriven network.now) lines.now }
    requires in_order { IsNonDecreasing (map (λ line. line.time) lines.now) }
{
    match Kernel::<QueueAgenda>::start(alloc, network, lines) {
        Ok(mut kernel) => put_parts(alloc, &mut kernel, sink, bytes),
        Err(AllocError) => Err(AllocError),
    }
}

/// Puts the parts of a run of stimuli.
fn put_stimuli(
    alloc: Global,
    stimuli: Stimuli,
    sink: &mut MemSink,
    bytes: &mut Vec<u8>,
) -> Result<(), AllocError>
    requires fit { All (Fits stimuli) stimuli.lines }
    requires in_order { IsNonDecreasing (map (λ line. line.time) stimuli.lines) }
{
    let Stimuli { ports, lines } = stimuli;
    let Ok(network) = Network::of_ports(alloc, ports) else {
        return Err(AllocError);
    };
    let lines = lines.as_slice();
    put_run(alloc, &network, lines, sink, bytes)
}

/// What a run of the stimuli in a row's file `s` writes part by part.
pub fn parts_of_run(alloc: Global, files: &[GivenFile], row: &Row) -> Result<Answer, AllocError> {
    let mut sink = sink_of(alloc, &row.sink)?;
    let mut bytes = Vec::new(alloc);
    for file in files {
        if file.name.as_str() == "s" && file.bytes.len() <= MOST_BYTES {
            match read_stim(alloc, file.bytes.as_slice(), None) {
                Ok(stimuli) => put_stimuli(alloc, stimuli, &mut sink, &mut bytes)?,
                Err(StimError::Fault(_)) => {}
                Err(StimError::NoMemory) => return Err(AllocError),
            }
        }
    }
    Ok(Answer { bytes, status: 0 })
}
