ghost use Rattle.std.specs.Prelude.{◌≡◌, ◌∷◌, [], Some, map, IsSome, IfSome, IfNone};
ghost use Rattle.vital_agenda.specs.Driver.{next_time, advance};
ghost use Rattle.vital_agenda.specs.Agendas.{IsAgenda, due_at};

use crate::agenda::Agenda;
use crate::due::Due;
use crate::entry::{Entry, Queue};
use crate::stay::Stay;
use crate::unlink::{make_first, put, unlink_after, unlink_back, unlink_first};
use crate::walk::{first, walk, walk_before};
use std::alloc::{AllocError, Global};
use std::marker::Model;
use vital_base::{Kind, Time};
use vital_logic::Level;

/// An agenda that keeps the transactions of all drivers in one queue, in which each entry tells the time of its driver's
/// preceding one, and each driver the time of its last one.
#[derive(Drop)]
pub struct QueueAgenda {
    now: Time,
    queue: Queue,
    current: Vec<Level>,
    last: Vec<Option<Time>>,
}

impl Model for QueueAgenda {
    ghost use Rattle.vital_agenda.specs.Agendas.{Content};
    ghost use Rattle.vital_agenda.specs.OneQueue.{IsOneQueue, drivers_from};

    ghost Value = { Content };

    ghost view = { λ a. record { now = a.now; drivers = drivers_from 0 a.current.items a.queue.entries } };

    ghost invariant = { λ a. IsOneQueue a.now a.queue.entries a.current.items a.last.items };
}

impl Agenda for QueueAgenda {
    ghost content = { λ a. a };

    fn new(alloc: Global, initial: &[Level]) -> Result<Self, AllocError> {
        Ok(QueueAgenda {
            now: 0,
            queue: Queue::new(alloc),
            current: initial.to_vec(alloc)?,
            last: vec![in alloc; None; initial.len()]?,
        })
    }

    fn assign(
        &mut self,
        driver: u32,
        kind: Kind,
        value: Level,
        delay: Time,
    ) -> Result<(), AllocError> {
        let last = self.last[driver as usize];
        let time = self.now + delay;
        let reached = walk(&self.queue, driver, last, Stay::From(time)).rest;
        let halt = walk_before(&self.queue, driver, reached, kind, value);
        let before = halt.kept.and(reached);
        // Nothing is unlinked before the insertion, which alone can want memory.
        put(&mut self.queue, driver, time, Entry { value, before })?;
        unlink_after(&mut self.queue, driver, last, time);
        unlink_back(&mut self.queue, driver, halt.rest);
        // Where nothing precedes what stays, its earliest entry has none before it already.
        make_first(&mut self.queue, driver, halt.rest.and(halt.kept));
        self.last[driver as usize] = Some(time);
        Ok(())
    }

    fn next_time(&self) -> Option<Time> {
        match first(&self.queue) {
            Some(((time, _), _)) => Some(time),
            None => None,
        }
    }

    fn advance(&mut self, due: &mut Due) {
        due.clear();
        self.begin();
        while let Some(driver) = self.take_due() {
            due.add(driver);
        }
    }

    fn current(&self, driver: u32) -> Level {
        self.current[driver as usize]
    }

    fn now(&self) -> Time {
        self.now
    }
}

impl QueueAgenda {
    /// Lets the next time be the present.
    fn begin(&mut self)
        requires { IsSome (next_time self.old.drivers) }
        ensures time { next_time self.old.drivers ≡ Some self.new.now }
        ensures drivers { self.new.drivers ≡ self.old.drivers }
        ensures valid { IsAgenda self.new }
    {
        if let Some(((time, _), _)) = first(&self.queue) {
            self.now = time;
        }
    }

    /// Lets the first transaction at the present time, in the order of drivers, become its driver's present value. The
    /// answer is that driver; None where there is no such transaction.
    fn take_due(&mut self) -> Option<u32>
        ensures now { self.new.now ≡ self.old.now }
        ensures first { IfSome result (λ driver.
            due_at self.old.now self.old.drivers ≡ driver ∷ due_at self.old.now self.new.drivers) }
        ensures rest { map (advance self.old.now) self.new.drivers ≡ map (advance self.old.now) self.old.drivers }
        ensures end { IfNone result (self.new ≡ self.old) }
        ensures none { IfNone result (due_at self.old.now self.old.drivers ≡ []) }
        ensures was_valid { IsAgenda self.old }
    {
        match first(&self.queue) {
            Some(((time, driver), entry)) if time == self.now => {
                self.current[driver as usize] = entry.value;
                let last = self.last[driver as usize];
                self.last[driver as usize] = unlink_first(&mut self.queue, driver, time, last);
                Some(driver)
            }
            _ => None,
        }
    }
}

#[cfg(test)]
mod tests;
