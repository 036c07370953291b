//! Running a network.

ghost use Rattle.std.specs.Prelude.{◌≡◌, ◌^◌, ◌≤◌, All, false, map};
ghost use Rattle.std.specs.List.Sorted.{IsNonDecreasing};
ghost use Rattle.vital_kernel.specs.Kernels.{IsDriven};
ghost use Rattle.vital_answers.specs.Outcome.{Stage};
ghost use Rattle.vital_run.specs.Runs.{IsRunAnswer};

use std::alloc::{AllocError, Global};
use vital_agenda::QueueAgenda;
use vital_answers::{Status, end_with};
use vital_base::{Sink, Time, WriteFault};
use vital_kernel::{Kernel, Network, RunError, one_run};
use vital_report::{Line, Printer};
use vital_stim::StimLine;

/// Runs a network with stimuli up to an end time, where no cycle has a delta number as large as the limit, and prints what is told of the run.
pub fn run_network<K: Sink>(
    alloc: Global,
    network: &Network<'_>,
    lines: &[StimLine],
    until: Time,
    limit: u32,
    printer: &mut Printer<'_, K>,
) -> Status
    requires driven { All (IsDriven network.now) lines.now }
    requires in_order { IsNonDecreasing (map (λ line. line.time) lines.now) }
    requires until { until ≤ 2 ^ 60 }
    requires limit { 1 ≤ limit }
    requires goes_on { printer.old.stopped ≡ false }
    ensures { Stage (IsRunAnswer network.now lines.now until limit) result printer.old printer.new }
{
    match Kernel::<QueueAgenda>::start(alloc, network, lines) {
        Ok(mut kernel) => run_kernel(&mut kernel, until, u64::from(limit), printer),
        Err(AllocError) => Status::NoMemory,
    }
}

/// The same with its simulation, which has not begun.
fn run_kernel<K: Sink>(
    kernel: &mut Kernel<'_, QueueAgenda>,
    until: Time,
    limit: u64,
    printer: &mut Printer<'_, K>,
) -> Status
    requires unbegun { kernel.old.is_begun ≡ false }
    requires not_given_up { kernel.old.is_given_up ≡ false }
    requires until { until ≤ 2 ^ 60 }
    requires limit { 1 ≤ limit }
    requires goes_on { printer.old.stopped ≡ false }
    ensures { Stage (IsRunAnswer kernel.old.network kernel.old.lines until limit) result printer.old printer.new }
{
    one_run();
    match printer.print(&Line::Version) {
        Ok(()) => match kernel.run_until(until, limit, printer) {
            Ok(()) => end_with(&Line::End { time: until }, Status::Done, printer),
            Err(RunError::DeltaLimit { time }) => {
                end_with(
                    &Line::RefusedDelta { time, limit },
                    Status::DeltaLimit,
                    printer,
                )
            }
            Err(RunError::WriteFault) => Status::WriteFault,
            Err(RunError::NoMemory) => Status::NoMemory,
        },
        Err(WriteFault) => Status::WriteFault,
    }
}
