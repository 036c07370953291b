ghost use Rattle.std.specs.Prelude.{◌≡◌, ◌^◌, ◌<◌, ◌≤◌, ℕ, [], length, map, EachIndex, Some, IfOk, slice_get, slice_index};
ghost use Rattle.vital_agenda.specs.Agendas.{idle};
ghost use Rattle.vital_signals.specs.Events.{quiet_signal};
ghost use Rattle.vital_signals.specs.Lists.{AreRising, is_listed};
ghost use Rattle.vital_signals.specs.Rounds.{with_signals};
ghost use Rattle.vital_signals.specs.SignalStates.{AreCurrent, AssignmentsKeepValues, IsAdvanced, SignalState, first_signals, updated};
ghost use Rattle.vital_signals.specs.Values.{values};

use crate::numbers::Numbers;
use crate::signal::Signal;
use crate::sources::Sources;
use std::alloc::{AllocError, Global};
use std::marker::Model;
use vital_agenda::{Agenda, Due, QueueAgenda};
use vital_logic::Level;

/// The signals of a simulation: what gives each its value, and which of them had an event in the last cycle (IEEE 1076-1993, 12.6.2 and
/// 12.6.4). All memory is taken at the start.
#[derive(Drop)]
pub struct Signals {
    sources: Sources,
    signals: Vec<Signal>,
    touched: Numbers,
    events: Numbers,
}

impl Model for Signals {
    ghost use Rattle.std.specs.Prelude.{◌≡◌, ◌^◌, ◌<◌, length};
    ghost use Rattle.vital_signals.specs.SignalStates.{SignalState};

    ghost Value = { SignalState };

    ghost view = { λ s. record {
      defaults = s.sources.defaults;
      signals_of = s.sources.signals_of;
      signals = s.signals.items;
      events = s.events.listed;
    } };

    ghost invariant = { λ s. (length s.signals.items ≡ length s.sources.defaults) × (length s.signals.items < 2 ^ 31)
        × (s.touched.room ≡ length s.sources.signals_of) × (s.events.room ≡ length s.sources.signals_of) };
}

impl Signals {
    /// The signals before the initial run: each has a default, which is its value as long as it has no driver; each driver has the number of
    /// its signal, and the value that it begins with. It takes time in proportion to signals and drivers.
    pub fn new(
        alloc: Global,
        defaults: &[Level],
        signals_of: &[u32],
        initial: &[Level],
    ) -> Result<Signals, AllocError>
        requires few_signals { length defaults.now < 2 ^ 31 }
        requires few_drivers { length signals_of.now < 2 ^ 31 }
        requires there { EachIndex signals_of.now (λ driver. slice_index signals_of.now driver < length defaults.now) }
        requires one_each { length initial.now ≡ length signals_of.now }
        ensures first { IfOk result (λ signals. signals ≡ first_signals defaults.now signals_of.now initial.now) }
        ensures current { IfOk result (λ signals. AreCurrent signals (idle initial.now).drivers) }
    {
        let drivers = signals_of.len() as u32;
        let sources = Sources::new(alloc, defaults, signals_of)?;
        // Values are read from an agenda: this one holds those that the drivers begin with, and is let go at the end.
        let agenda = QueueAgenda::new(alloc, initial)?;
        let signals = first_values(alloc, &sources, &agenda, defaults.len() as u32)?;
        Ok(Signals {
            sources,
            signals,
            touched: Numbers::reserve(alloc, drivers)?,
            events: Numbers::reserve(alloc, drivers)?,
        })
    }

    /// Gives the signals the values of their drivers at the agenda's present time, to which it has just advanced, and lists those that have
    /// an event (IEEE 1076-1993, 12.6.4). Only the signals of the drivers that are due are touched, each once. It takes no memory.
    pub fn update<A: Agenda>(&mut self, agenda: &A, due: &Due)
        requires { IsAdvanced self.old due.now.listed (A.content agenda.now) }
        ensures after { self.new ≡ updated (A.content agenda.now) self.old }
        ensures current { AreCurrent self.new (A.content agenda.now).drivers }
    {
        touch(&mut self.touched, &self.sources, due);
        renew(
            &mut self.signals,
            &mut self.events,
            &self.touched,
            &self.sources,
            agenda,
        );
    }

    /// How many signals there are.
    pub fn len(&self) -> u32
        ensures { result ≡ length self.now.signals }
    {
        self.signals.len() as u32
    }

    /// The value of a signal.
    pub fn value(&self, number: u32) -> Level
        requires { number < length self.now.signals }
        ensures { slice_get (map (λ signal. signal.value) self.now.signals) number ≡ Some result }
    {
        self.signals[number as usize].value
    }

    /// A signal: its value, its last value and the time of its last event.
    pub fn signal(&self, number: u32) -> Signal
        requires { number < length self.now.signals }
        ensures { slice_get self.now.signals number ≡ Some result }
    {
        self.signals[number as usize]
    }

    /// The numbers of the signals that had an event in the last cycle, rising.
    pub fn events(&self) -> &[u32]
        ensures { result.now ≡ self.now.events }
    {
        self.events.as_slice()
    }
}

/// A law: an assignment to a driver leaves all signals the values that the drivers give them, since it changes only what is pending
/// (IEEE 1076-1993, 8.4.1).
pub fn assignments_keep_values()
    ensures { AssignmentsKeepValues }
{}

/// So many signals before their first event, each with the value that its drivers give it.
fn first_values<A: Agenda>(
    alloc: Global,
    sources: &Sources,
    agenda: &A,
    count: u32,
) -> Result<Vec<Signal>, AllocError>
    requires all { count ≡ length sources.now.defaults }
    requires one_each { length (A.content agenda.now).drivers ≡ length sources.now.signals_of }
    ensures { IfOk result (λ signals. signals.items
        ≡ map quiet_signal (values sources.now.defaults sources.now.signals_of (A.content agenda.now).drivers)) }
{
    let mut signals = Vec::with_capacity(alloc, count as usize)?;
    for number in 0..count {
        signals.push(Signal::quiet(sources.value(agenda, number)))?;
    }
    Ok(signals)
}

/// Lists the signals of the drivers that are due, in order, each once.
fn touch(touched: &mut Numbers, sources: &Sources, due: &Due)
    requires room { length due.now.listed ≤ touched.old.room }
    requires there { EachIndex due.now.listed (λ k. slice_index due.now.listed k < length sources.now.signals_of) }
    ensures rising { AreRising 0 (length sources.now.defaults) touched.new.listed }
    ensures same { (number : ℕ) → is_listed number touched.new.listed
        ≡ is_listed number (map (λ driver. slice_index sources.now.signals_of driver) due.now.listed) }
    ensures keeps_room { touched.new.room ≡ touched.old.room }
    ensures fits { length touched.new.listed ≤ touched.new.room }
{
    gather(touched, sources, due);
    touched.order();
}

/// Lists the signals of the drivers that are due, in the order of the drivers.
fn gather(touched: &mut Numbers, sources: &Sources, due: &Due)
    requires room { length due.now.listed ≤ touched.old.room }
    requires there { EachIndex due.now.listed (λ k. slice_index due.now.listed k < length sources.now.signals_of) }
    ensures listed { touched.new.listed ≡ map (λ driver. slice_index sources.now.signals_of driver) due.now.listed }
    ensures below { EachIndex touched.new.listed (λ k. slice_index touched.new.listed k < length sources.now.defaults) }
    ensures keeps_room { touched.new.room ≡ touched.old.room }
{
    touched.clear();
    for k in 0..due.len() {
        touched.add(sources.signal_of(due.at(k)));
    }
}

/// Gives the signals that are touched their values, and lists those that have an event.
fn renew<A: Agenda>(
    signals: &mut [Signal],
    events: &mut Numbers,
    touched: &Numbers,
    sources: &Sources,
    agenda: &A,
)
    requires all { length signals.old ≡ length sources.now.defaults }
    requires rising { AreRising 0 (length sources.now.defaults) touched.now.listed }
    requires room { length touched.now.listed ≤ events.old.room }
    requires one_each { length (A.content agenda.now).drivers ≡ length sources.now.signals_of }
    ensures after { record { signals = signals.new; events = events.new.listed }
        ≡ with_signals (A.content agenda.now).now (values sources.now.defaults sources.now.signals_of (A.content agenda.now).drivers)
        touched.now.listed (record { signals = signals.old; events = [] }) }
    ensures keeps_room { events.new.room ≡ events.old.room }
{
    events.clear();
    let now = agenda.now();
    for k in 0..touched.len() {
        let number = touched.at(k);
        if signals[number as usize].give(sources.value(agenda, number), now) {
            events.add(number);
        }
    }
}
