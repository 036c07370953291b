//! Processes that run.

ghost use Rattle.std.specs.Prelude.{◌≡◌, ◌<◌, [], ◌∷◌, false, All, Some, length, slice_get};
ghost use Rattle.std.specs.List.{filter_map};
ghost use Rattle.vital_kernel.specs.Activations.{Activates, CanRun, KeepsValues, state_of};
ghost use Rattle.vital_kernel.specs.Networks.{NetProcess, processes as processes'};

use crate::effects::make_effects;
use crate::network::Network;
use crate::processes::Processes;
use vital_agenda::Agenda;
use vital_base::Sink;
use vital_report::{PrintError, Printer};
use vital_signals::Signals;

/// Runs all processes of a network, in number order.
pub(crate) fn run_all<A: Agenda, K: Sink>(
    network: &Network<'_>,
    signals: &Signals,
    delta: u64,
    agenda: &mut A,
    processes: &mut Processes<'_>,
    printer: &mut Printer<'_, K>,
) -> Result<(), PrintError>
    requires can_run { CanRun network.now (A.content agenda.old) signals.now processes.old }
    requires goes_on { printer.old.stopped ≡ false }
    ensures activates { let variables = signals.now.signals in Activates result network.now (processes' network.now)
        (state_of (A.content agenda.old) delta variables processes.old.variables)
        (state_of (A.content agenda.new) delta variables processes.new.variables) printer.old printer.new }
    ensures keeps { KeepsValues (A.content agenda.old) (A.content agenda.new) }
    ensures can_run { CanRun network.now (A.content agenda.new) signals.now processes.new }
{
    for process in 0..processes.len() {
        run_process(network, process, signals, delta, agenda, processes, printer)?;
    }
    Ok(())
}

/// Runs the processes of these numbers, in their order.
pub(crate) fn run_some<A: Agenda, K: Sink>(
    network: &Network<'_>,
    numbers: &[u32],
    signals: &Signals,
    delta: u64,
    agenda: &mut A,
    processes: &mut Processes<'_>,
    printer: &mut Printer<'_, K>,
) -> Result<(), PrintError>
    requires can_run { CanRun network.now (A.content agenda.old) signals.now processes.old }
    requires there { All (λ number. number < length (processes' network.now)) numbers.now }
    requires goes_on { printer.old.stopped ≡ false }
    ensures activates { let variables = signals.now.signals in Activates result network.now (filter_map (slice_get (processes' network.now)) numbers.now)
        (state_of (A.content agenda.old) delta variables processes.old.variables)
        (state_of (A.content agenda.new) delta variables processes.new.variables) printer.old printer.new }
    ensures keeps { KeepsValues (A.content agenda.old) (A.content agenda.new) }
    ensures can_run { CanRun network.now (A.content agenda.new) signals.now processes.new }
{
    for process in numbers {
        run_process(
            network, *process, signals, delta, agenda, processes, printer,
        )?;
    }
    Ok(())
}

/// Runs the process of a number.
fn run_process<A: Agenda, K: Sink>(
    network: &Network<'_>,
    process: u32,
    signals: &Signals,
    delta: u64,
    agenda: &mut A,
    processes: &mut Processes<'_>,
    printer: &mut Printer<'_, K>,
) -> Result<(), PrintError>
    requires can_run { CanRun network.now (A.content agenda.old) signals.now processes.old }
    requires there { process < length (processes' network.now) }
    requires goes_on { printer.old.stopped ≡ false }
    ensures activates { (p : NetProcess) → slice_get (processes' network.now) process ≡ Some p → Activates result network.now (p ∷ [])
        (state_of (A.content agenda.old) delta signals.now.signals processes.old.variables)
        (state_of (A.content agenda.new) delta signals.now.signals processes.new.variables) printer.old printer.new }
    ensures keeps { KeepsValues (A.content agenda.old) (A.content agenda.new) }
    ensures can_run { CanRun network.now (A.content agenda.new) signals.now processes.new }
{
    let cells = network.cells();
    processes.run(process, agenda.now(), signals);
    let instance = processes.instance(process) as usize;
    make_effects(&cells[instance], processes, delta, agenda, printer)
}
