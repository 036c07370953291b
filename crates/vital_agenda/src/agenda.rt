ghost use Rattle.std.specs.Prelude.{◌≡◌, ◌+◌, ◌^◌, ◌<◌, ◌≤◌, length, Some, IfOk, OnOk, OnErr, IsSome, slice_get};
ghost use Rattle.vital_agenda.specs.Agendas.{Content, IsAgenda, idle, assigned, advanced, due_at};
ghost use Rattle.vital_agenda.specs.Driver.{currents, next_time};

use crate::due::Due;
use std::alloc::{AllocError, Global};
use vital_base::{Kind, Time};
use vital_logic::Level;

/// The present time, and for each driver its present value and its pending transactions (IEEE 1076-1993, 8.4.1 and
/// 12.6.1). Drivers have numbers from 0 on.
pub trait Agenda {
    // The present time and the drivers.
    ghost content: { Self → Content };

    /// Drivers with these values and nothing pending, at time 0.
    fn new(alloc: Global, initial: &[Level]) -> Result<Self, AllocError>
        requires { length initial.now < 2 ^ 32 }
        ensures { IfOk result (λ agenda. content agenda ≡ idle initial.now) };

    /// Assigns a value to a driver after a delay (IEEE 1076-1993, 8.4.1). Where memory runs out, all is as before.
    fn assign(
        &mut self,
        driver: u32,
        kind: Kind,
        value: Level,
        delay: Time,
    ) -> Result<(), AllocError>
        requires there { driver < length (content self.old).drivers }
        requires room { (content self.old).now + delay < 2 ^ 61 }
        ensures ok { OnOk result (content self.new ≡ assigned driver kind value delay (content self.old)) }
        ensures err { OnErr result (content self.new ≡ content self.old) }
        ensures valid { IsAgenda (content self.new) };

    /// The time of the next transaction of any driver; None exactly where nothing is pending.
    fn next_time(&self) -> Option<Time>
        ensures next { result ≡ next_time (content self.now).drivers }
        ensures valid { IsAgenda (content self.now) };

    /// Lets the next time be the present, at which each transaction becomes its driver's present value and leaves the
    /// list (IEEE 1076-1993, 12.6.1). The drivers that had one are listed, rising. It takes no memory.
    fn advance(&mut self, due: &mut Due)
        requires pending { IsSome (next_time (content self.old).drivers) }
        requires room { length (content self.old).drivers ≤ due.old.room }
        ensures time { next_time (content self.old).drivers ≡ Some (content self.new).now }
        ensures after { content self.new ≡ advanced (content self.new).now (content self.old) }
        ensures due { due.new.listed ≡ due_at (content self.new).now (content self.old).drivers }
        ensures keeps_room { due.new.room ≡ due.old.room }
        ensures valid { IsAgenda (content self.new) };

    /// The present value of a driver.
    fn current(&self, driver: u32) -> Level
        requires { driver < length (content self.now).drivers }
        ensures { slice_get (currents (content self.now).drivers) driver ≡ Some result };

    /// The present time.
    fn now(&self) -> Time
        ensures now { result ≡ (content self.now).now }
        ensures valid { IsAgenda (content self.now) };
}
