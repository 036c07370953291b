//! A simulation of a network.

ghost use Rattle.std.specs.Prelude.{◌≡◌, ◌-◌, ◌^◌, ◌<◌, ◌≤◌, [], All, Err, IfOk, IsErr, OnOk, Some, false, is_err, map, true};
ghost use Rattle.std.specs.List.Sorted.{IsNonDecreasing};
ghost use Rattle.vital_agenda.specs.Driver.{AllRise, next_time};
ghost use Rattle.vital_kernel.specs.Activations.{text_in};
ghost use Rattle.vital_kernel.specs.Cycles.{cycle_at, first_state, initial_run};
ghost use Rattle.vital_kernel.specs.Kernels.{GoesOn, IsDriven, IsToCome, after_next, begun, begun_text, next_delta, next_text};
ghost use Rattle.vital_kernel.specs.Lines.{run_lines};
ghost use Rattle.vital_kernel.specs.Runs.{delta_at};
ghost use Rattle.vital_kernel.specs.declared.run_error.RunError.TheVariants as run_error;
ghost use Rattle.vital_report.specs.Lines.{text_of};
ghost use Rattle.vital_report.specs.Reporters.{Prints, PrintsPart};
ghost use Rattle.vital_report.specs.declared.print_error.PrintError.TheVariants as print_error;

use crate::activation::{run_all, run_some};
use crate::first::{first_signals, first_values};
use crate::listeners::Listeners;
use crate::network::Network;
use crate::printing::{print_events, print_inits};
use crate::processes::Processes;
use crate::run_error::{CycleError, RunError};
use crate::stimuli::{first_time, hand_due, sooner, stimulus_drivers, up_to};
use std::alloc::{AllocError, Global};
use std::marker::Model;
use vital_agenda::{Agenda, Due};
use vital_base::{Sink, Time, WriteFault};
use vital_report::{PrintError, Printer};
use vital_signals::Signals;
use vital_stim::StimLine;

/// A simulation of a network with stimuli, by any agenda (IEEE 1076-1993, 12.6.4). A line of the stimuli is handed to the agenda when the cycle
/// at its time comes, so that little is pending at once. Contracts see it as what is simulated and the state in which it stands, with all
/// lines assigned in the initial run.
#[derive(Drop)]
pub struct Kernel<'a, A: Agenda> {
    network: &'a Network<'a>,
    lines: &'a [StimLine],
    /// The lines that are still to be handed: none before the initial run.
    left: &'a [StimLine],
    /// For each signal the number of its driver for the stimuli; 0 where it has none.
    stimulus_drivers: Vec<u32>,
    agenda: A,
    due: Due,
    signals: Signals,
    processes: Processes<'a>,
    listeners: Listeners,
    delta: u64,
    is_begun: bool,
    is_given_up: bool,
}

impl<'a, A: Agenda> Model for Kernel<'a, A> {
    ghost use Rattle.std.specs.Coded.{codes};
    ghost use Rattle.vital_kernel.specs.Kernels.{AreParts, Simulation, simulation_with};
    ghost use Rattle.vital_netlist.specs.contracts.design_lists.DesignDriver as driver;
    ghost use Rattle.vital_kernel.specs.contracts.network.NetSignal as signal;
    ghost use Rattle.vital_timing.specs.contracts.delay.Delay as delay;
    ghost use Rattle.vital_typed_cells.specs.contracts.typed_cell.TypedCell as tree;

    ghost Value = { Simulation };

    ghost coded = { Prim.hlevel (codes, driver.the_row.coded, signal.the_row.coded, delay.the_row.coded, tree.the_row.coded) };

    ghost view = { λ k. simulation_with k.stimulus_drivers.items k.left.now (record {
      network = k.network.now;
      lines = k.lines.now;
      is_begun = k.is_begun;
      is_given_up = k.is_given_up;
      state = record {
        now = (A.content k.agenda).now;
        delta = k.delta;
        drivers = (A.content k.agenda).drivers;
        signals = k.signals.signals;
        variables = k.processes.variables;
      };
    }) };

    ghost invariant = { λ k. AreParts k.network.now k.lines.now k.is_begun (record {
      now = (A.content k.agenda).now;
      delta = k.delta;
      drivers = (A.content k.agenda).drivers;
      signals = k.signals.signals;
      variables = k.processes.variables;
    }) k.stimulus_drivers.items k.left.now k.due.room k.signals k.processes k.listeners };
}

impl<'a, A: Agenda> Kernel<'a, A> {
    /// The simulation of a network with stimuli, each line of which is for a port with a driver, in the order of their times. The initial run is
    /// still to come. It takes time and memory in proportion to the network, and all memory but that of pending transactions.
    pub fn start(
        alloc: Global,
        network: &'a Network<'a>,
        lines: &'a [StimLine],
    ) -> Result<Kernel<'a, A>, AllocError>
        requires driven { All (IsDriven network.now) lines.now }
        requires in_order { IsNonDecreasing (map (λ line. line.time) lines.now) }
        ensures { IfOk result (λ k. k ≡ record { network = network.now; lines = lines.now; is_begun = false; is_given_up = false; state = first_state network.now }) }
    {
        let initial = first_values(alloc, network)?;
        let signals = first_signals(alloc, network, &initial)?;
        let stimulus_drivers = stimulus_drivers(alloc, network)?;
        let due = Due::reserve(alloc, initial.len() as u32)?;
        let processes = Processes::new(alloc, network)?;
        let listeners = Listeners::new(alloc, network)?;
        let agenda = A::new(alloc, initial.as_slice())?;
        Ok(Kernel {
            network,
            lines,
            left: &[],
            stimulus_drivers,
            agenda,
            due,
            signals,
            processes,
            listeners,
            delta: 0,
            is_begun: false,
            is_given_up: false,
        })
    }

    /// Does the initial run, where it is still to come, or else the next cycle (IEEE 1076-1993, 12.6.4), and prints its lines. Where it
    /// answers Ok, all lines that were printed so far are written, and nothing is held. After a fault of the sink or want of memory a
    /// prefix of the lines was printed, and the simulation is given up: no call may go on with it. A printer that has stopped is such a fault,
    /// and prints nothing.
    pub fn cycle<K: Sink>(&mut self, printer: &mut Printer<'_, K>) -> Result<(), CycleError>
        requires not_given_up { self.old.is_given_up ≡ false }
        requires to_come { IsToCome self.old }
        requires delta { self.old.state.delta < 2 ^ 32 - 1 }
        ensures after { OnOk result (self.new ≡ after_next self.old) }
        ensures prints { PrintsPart result (next_text self.old) printer.old printer.new }
        ensures holds_nothing { OnOk result (printer.new.held ≡ []) }
        ensures given_up { self.new.is_given_up ≡ is_err result }
        ensures stopped_is_fault { printer.old.stopped ≡ true → result ≡ Err print_error.WriteFault }
        ensures stopped_prints_nothing { printer.old.stopped ≡ true → printer.new ≡ printer.old }
    {
        self.flush_before(printer)?;
        self.run_next(printer)
    }

    /// Goes on with the run up to an end time, which is at most 2^60 fs, where no cycle has a delta number as large as the limit, which is at
    /// least 1, and prints its lines: does the initial run where it is still to come, and then each cycle up to the end time. In a cycle
    /// only the drivers that are due, the signals that these drive, and the processes that are sensitive to a signal with an event are
    /// touched. At the limit it stands before the cycle that would pass it. After a fault of the sink or want of memory a prefix of the
    /// lines was printed, and the simulation is given up: no call may go on with it. A printer that has stopped is such a fault, and prints
    /// nothing.
    pub fn run_until<K: Sink>(
        &mut self,
        until: Time,
        limit: u64,
        printer: &mut Printer<'_, K>,
    ) -> Result<(), RunError>
        requires not_given_up { self.old.is_given_up ≡ false }
        requires until { until ≤ 2 ^ 60 }
        requires limit { 1 ≤ limit }
        ensures goes { GoesOn result until limit self.old self.new printer.old printer.new }
        ensures stopped_is_fault { printer.old.stopped ≡ true → result ≡ Err run_error.WriteFault }
        ensures stopped_prints_nothing { printer.old.stopped ≡ true → printer.new ≡ printer.old }
    {
        self.flush_before(printer)?;
        self.begin(printer)?;
        self.run_cycles(until, limit, printer)
    }

    /// The time of the next cycle, in femtoseconds, if one is to come: the least one of a pending transaction of any driver. None is pending
    /// before the present.
    pub fn next_time(&self) -> Option<Time>
        ensures next { result ≡ next_time self.now.state.drivers }
        ensures rise { AllRise self.now.state.now self.now.state.drivers }
    {
        sooner(self.agenda.next_time(), first_time(self.left))
    }

    /// The present delta number.
    pub fn delta(&self) -> u64
        ensures { result ≡ self.now.state.delta }
    {
        self.delta
    }

    /// Writes what was held before, and marks where that failed, as it does where the printer has stopped.
    fn flush_before<K: Sink>(&mut self, printer: &mut Printer<'_, K>) -> Result<(), WriteFault>
        requires not_given_up { self.old.is_given_up ≡ false }
        ensures same { OnOk result (self.new ≡ self.old) }
        ensures prints { Prints result [] printer.old printer.new }
        ensures given_up { self.new.is_given_up ≡ is_err result }
        ensures stopped_is_fault { printer.old.stopped ≡ true → IsErr result }
        ensures stopped_prints_nothing { printer.old.stopped ≡ true → printer.new ≡ printer.old }
    {
        let written = printer.flush();
        self.is_given_up = written.is_err();
        written
    }

    /// Does the initial run, where it is still to come.
    fn begin<K: Sink>(&mut self, printer: &mut Printer<'_, K>) -> Result<(), PrintError>
        requires not_given_up { self.old.is_given_up ≡ false }
        requires goes_on { printer.old.stopped ≡ false }
        ensures after { OnOk result (self.new ≡ begun self.old) }
        ensures prints { PrintsPart result (begun_text self.old) printer.old printer.new }
        ensures given_up { self.new.is_given_up ≡ is_err result }
    {
        if self.is_begun {
            return Ok(());
        }
        self.run_next(printer)
    }

    /// Runs the cycles up to an end time.
    fn run_cycles<K: Sink>(
        &mut self,
        until: Time,
        limit: u64,
        printer: &mut Printer<'_, K>,
    ) -> Result<(), RunError>
        requires not_given_up { self.old.is_given_up ≡ false }
        requires until { until ≤ 2 ^ 60 }
        requires begun { self.old.is_begun ≡ true }
        requires goes_on { printer.old.stopped ≡ false }
        ensures { GoesOn result until limit self.old self.new printer.old printer.new }
    {
        while let Some(time) = up_to(until, self.next_time()) {
            let delta = self.next_delta(time);
            if delta >= limit {
                return Err(RunError::DeltaLimit { time });
            }
            self.run_next(printer)?;
        }
        Ok(())
    }

    /// Does the next part of the run, and marks where that failed. `cycle` asks that the present delta number is below 2^32 - 1, whenever the
    /// next cycle comes. A run up to an end time may stand at that number where the next cycle comes later and counts anew, and its limit may
    /// be larger. So both do this, which asks for less: that the number of the next cycle can be counted on.
    fn run_next<K: Sink>(&mut self, printer: &mut Printer<'_, K>) -> Result<(), PrintError>
        requires not_given_up { self.old.is_given_up ≡ false }
        requires to_come { IsToCome self.old }
        requires delta { self.old.is_begun ≡ true → next_delta self.old.state < 2 ^ 64 - 1 }
        requires goes_on { printer.old.stopped ≡ false }
        ensures after { OnOk result (self.new ≡ after_next self.old) }
        ensures prints { PrintsPart result (next_text self.old) printer.old printer.new }
        ensures holds_nothing { OnOk result (printer.new.held ≡ []) }
        ensures given_up { self.new.is_given_up ≡ is_err result }
    {
        let outcome = self.write_part(printer);
        self.is_given_up = outcome.is_err();
        outcome
    }

    /// Does the next part of the run, and writes all that is held then.
    fn write_part<K: Sink>(&mut self, printer: &mut Printer<'_, K>) -> Result<(), PrintError>
        requires to_come { IsToCome self.old }
        requires delta { self.old.is_begun ≡ true → next_delta self.old.state < 2 ^ 64 - 1 }
        requires goes_on { printer.old.stopped ≡ false }
        ensures after { OnOk result (self.new ≡ after_next self.old) }
        ensures prints { PrintsPart result (next_text self.old) printer.old printer.new }
        ensures holds_nothing { OnOk result (printer.new.held ≡ []) }
    {
        self.run_part(printer)?;
        printer.flush()?;
        Ok(())
    }

    /// Does the next part of the run: the initial run, where it is still to come, or else the next cycle.
    fn run_part<K: Sink>(&mut self, printer: &mut Printer<'_, K>) -> Result<(), PrintError>
        requires to_come { IsToCome self.old }
        requires delta { self.old.is_begun ≡ true → next_delta self.old.state < 2 ^ 64 - 1 }
        requires goes_on { printer.old.stopped ≡ false }
        ensures after { OnOk result (self.new ≡ after_next self.old) }
        ensures prints { PrintsPart result (next_text self.old) printer.old printer.new }
    {
        if self.is_begun {
            let time = self.next_time().unwrap();
            let delta = self.next_delta(time);
            self.run_cycle(time, delta, printer)
        } else {
            self.run_first(printer)
        }
    }

    /// Does the initial run, where nothing was done before. From it on all lines are to be handed.
    fn run_first<K: Sink>(&mut self, printer: &mut Printer<'_, K>) -> Result<(), PrintError>
        requires first { self.old.is_begun ≡ false }
        requires goes_on { printer.old.stopped ≡ false }
        ensures after { let first = initial_run self.old.network self.old.lines in OnOk result (self.new ≡ record self.old { is_begun = true; state = first.state }) }
        ensures prints { let first = initial_run self.old.network self.old.lines in
            PrintsPart result (text_of (run_lines self.old.network first.happened)) printer.old printer.new }
    {
        self.is_begun = true;
        self.left = self.lines;
        print_inits(self.network.signals(), &self.signals, printer)?;
        run_all(
            self.network,
            &self.signals,
            self.delta,
            &mut self.agenda,
            &mut self.processes,
            printer,
        )
    }

    /// The delta number of the next cycle, which comes at a time.
    fn next_delta(&self, time: Time) -> u64
        ensures { result ≡ delta_at time self.now.state.now self.now.state.delta }
    {
        if time == self.agenda.now() {
            self.delta + 1
        } else {
            0
        }
    }

    /// Runs the next cycle, which comes at a time and has a delta number: lines at this time are handed, transactions that are due become
    /// values, signals get theirs, and the processes run that are sensitive to a signal with an event.
    fn run_cycle<K: Sink>(
        &mut self,
        time: Time,
        delta: u64,
        printer: &mut Printer<'_, K>,
    ) -> Result<(), PrintError>
        requires next { next_time self.old.state.drivers ≡ Some time }
        requires rise { AllRise self.old.state.now self.old.state.drivers }
        requires time { time ≤ 2 ^ 60 }
        requires delta { delta < 2 ^ 64 - 1 }
        requires begun { self.old.is_begun ≡ true }
        requires goes_on { printer.old.stopped ≡ false }
        ensures after { let part = cycle_at self.old.network time delta self.old.state in OnOk result (self.new ≡ record self.old { state = part.state }) }
        ensures prints { let part = cycle_at self.old.network time delta self.old.state in
            PrintsPart result (text_in self.old.network part.happened) printer.old printer.new }
    {
        let watched = self.network.signals();
        self.left = hand_due(&self.stimulus_drivers, self.left, time, &mut self.agenda)?;
        self.agenda.advance(&mut self.due);
        self.signals.update(&self.agenda, &self.due);
        self.delta = delta;
        print_events(watched, &self.signals, time, delta, printer)?;
        self.listeners.trigger(self.signals.events());
        run_some(
            self.network,
            self.listeners.triggered(),
            &self.signals,
            delta,
            &mut self.agenda,
            &mut self.processes,
            printer,
        )
    }
}
