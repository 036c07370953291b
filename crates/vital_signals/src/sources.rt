ghost use Rattle.std.specs.Prelude.{◌≡◌, ◌+◌, ◌^◌, ◌<◌, length, drop, fold, EachIndex, replicate, None, Some, IfOk, slice_get, slice_index};
ghost use Rattle.vital_agenda.specs.Driver.{currents};
ghost use Rattle.vital_logic.specs.Tables.{entry_at, resolution_table};
ghost use Rattle.vital_signals.specs.Sources.{AreLinkedFrom, driver_from};
ghost use Rattle.vital_signals.specs.Values.{driven, values, values_driving};

use std::alloc::{AllocError, Global};
use std::marker::Model;
use vital_agenda::Agenda;
use vital_logic::{Level, resolve2};

/// What gives each signal its value: its default, and the list of its drivers in order. Of each signal the first driver is kept, and of each
/// driver the next one of the same signal.
#[derive(Drop)]
pub struct Sources {
    defaults: Vec<Level>,
    signals_of: Vec<u32>,
    first: Vec<Option<u32>>,
    next: Vec<Option<u32>>,
}

impl Model for Sources {
    ghost use Rattle.std.specs.Prelude.{◌≡◌, length};
    ghost use Rattle.vital_signals.specs.Sources.{AreLinkedFrom, SourceLists};

    ghost Value = { SourceLists };

    ghost view = { λ s. record { defaults = s.defaults.items; signals_of = s.signals_of.items } };

    ghost invariant = { λ s. (length s.first.items ≡ length s.defaults.items) × AreLinkedFrom 0 s.signals_of.items s.first.items s.next.items };
}

impl Sources {
    /// The lists of signals with these defaults, where each driver has the number of its signal. It takes time in proportion to signals
    /// and drivers.
    pub fn new(alloc: Global, defaults: &[Level], signals_of: &[u32]) -> Result<Sources, AllocError>
        requires few { length signals_of.now < 2 ^ 31 }
        requires there { EachIndex signals_of.now (λ driver. slice_index signals_of.now driver < length defaults.now) }
        ensures { IfOk result (λ sources. sources ≡ record { defaults = defaults.now; signals_of = signals_of.now }) }
    {
        let mut first = vec![in alloc; None; defaults.len()]?;
        let mut next = vec![in alloc; None; signals_of.len()]?;
        link(signals_of, &mut first, &mut next);
        Ok(Sources {
            defaults: defaults.to_vec(alloc)?,
            signals_of: signals_of.to_vec(alloc)?,
            first,
            next,
        })
    }

    /// The number of the signal of a driver.
    pub fn signal_of(&self, driver: u32) -> u32
        requires { driver < length self.now.signals_of }
        ensures number { result ≡ slice_index self.now.signals_of driver }
        ensures there { result < length self.now.defaults }
    {
        self.signals_of[driver as usize]
    }

    /// The value that the drivers give to a signal (IEEE 1076-1993, 12.6.2).
    pub fn value<A: Agenda>(&self, agenda: &A, number: u32) -> Level
        requires there { number < length self.now.defaults }
        requires one_each { length (A.content agenda.now).drivers ≡ length self.now.signals_of }
        ensures { slice_get (values self.now.defaults self.now.signals_of (A.content agenda.now).drivers) number ≡ Some result }
    {
        match self.first(number) {
            Some(driver) => self.driven(agenda, driver),
            None => self.defaults[number as usize],
        }
    }

    /// The value that its drivers give to the signal of a driver, which is the first of them.
    fn driven<A: Agenda>(&self, agenda: &A, driver: u32) -> Level
        requires there { driver < length self.now.signals_of }
        requires one_each { length (A.content agenda.now).drivers ≡ length self.now.signals_of }
        ensures { (default : Level) → driven default (values_driving (slice_index self.now.signals_of driver)
            (drop driver self.now.signals_of) (drop driver (currents (A.content agenda.now).drivers))) ≡ result }
    {
        match self.next(driver) {
            Some(_) => self.resolved(agenda, driver),
            None => agenda.current(driver),
        }
    }

    /// The resolution of the values of the drivers of a signal, from this driver on.
    fn resolved<A: Agenda>(&self, agenda: &A, driver: u32) -> Level
        requires there { driver < length self.now.signals_of }
        requires one_each { length (A.content agenda.now).drivers ≡ length self.now.signals_of }
        ensures { result ≡ fold (entry_at resolution_table) Level.Z (values_driving (slice_index self.now.signals_of driver)
            (drop driver self.now.signals_of) (drop driver (currents (A.content agenda.now).drivers))) }
    {
        let mut value = Level::Z;
        let mut at = Some(driver);
        while let Some(driver) = at {
            value = resolve2(value, agenda.current(driver));
            at = self.next(driver);
        }
        value
    }

    /// The first driver of a signal.
    fn first(&self, number: u32) -> Option<u32>
        requires { number < length self.now.defaults }
        ensures { result ≡ driver_from 0 number self.now.signals_of }
    {
        self.first[number as usize]
    }

    /// The next driver of the signal of a driver.
    fn next(&self, driver: u32) -> Option<u32>
        requires { driver < length self.now.signals_of }
        ensures { result ≡ driver_from (driver + 1) (slice_index self.now.signals_of driver) self.now.signals_of }
    {
        self.next[driver as usize]
    }
}

/// Links the drivers of each signal in order, from the last driver back.
fn link(signals_of: &[u32], first: &mut [Option<u32>], next: &mut [Option<u32>])
    requires few { length signals_of.now < 2 ^ 31 }
    requires there { EachIndex signals_of.now (λ driver. slice_index signals_of.now driver < length first.old) }
    requires one_each { length next.old ≡ length signals_of.now }
    requires none { first.old ≡ replicate (length first.old) None }
    ensures { AreLinkedFrom 0 signals_of.now first.new next.new }
{
    for driver in (0..signals_of.len()).rev() {
        let signal = signals_of[driver] as usize;
        next[driver] = first[signal];
        first[signal] = Some(driver as u32);
    }
}
