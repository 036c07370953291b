//! What the variables of all processes of a cell hold.

ghost use Rattle.std.specs.Prelude.{◌≡◌, ◌<◌, ◌≤◌, ◌^◌, [], ℕ, All, IfOk, map, length, slice_set};
ghost use Rattle.vital_machine.specs.Fits.{EndsInTime, FitsStore, HasRoom, HasShortDelays, HaveTimes, most_effects_of};
ghost use Rattle.vital_machine.specs.Machine.{activation, slots_of};

use crate::effects::Effects;
use crate::executed::execute_steps;
use crate::input::Input;
use crate::program::{Process, Program};
use crate::slot::Slot;
use crate::steps::Executed;
use sqlite_items::Items;
use std::alloc::{AllocError, Global};
use std::marker::Model;
use vital_base::Time;
use vital_path_delay::Path;
use vital_timing::Delay;

/// What the variables of all processes of a cell hold between their activations. Contracts see it as the list, for each process, of what
/// its variables hold, with room for so many paths at a call of a path delay.
#[derive(Drop)]
pub struct Store {
    processes: Vec<Vec<Slot>>,
    paths: Vec<Path>,
}

impl Model for Store {
    ghost use Rattle.std.specs.Prelude.{length, map};
    ghost use Rattle.vital_machine.specs.Programs.{SlotLists};

    ghost Value = { SlotLists };

    ghost view = { λ s. record { listed = map (λ slots. slots.items) s.processes.items; room = length s.paths.items } };
}

/// A variable that holds the same.
fn copy_of(alloc: Global, slot: &Slot) -> Result<Slot, AllocError>
    ensures { IfOk result (λ copy. copy ≡ slot.now) }
{
    match slot {
        Slot::Level(level) => Ok(Slot::Level(*level)),
        Slot::X01(level) => Ok(Slot::X01(*level)),
        Slot::Vector(levels) => Ok(Slot::Vector(Items::from_slice(alloc, levels.as_slice())?)),
        Slot::Glitch(kept) => Ok(Slot::Glitch(*kept)),
        Slot::SetupHold(kept) => Ok(Slot::SetupHold(*kept)),
        Slot::RecRem(kept) => Ok(Slot::RecRem(*kept)),
        Slot::PeriodPulse(kept) => Ok(Slot::PeriodPulse(*kept)),
    }
}

/// Variables that hold the same, in order.
fn copies_of(alloc: Global, slots: &[Slot]) -> Result<Vec<Slot>, AllocError>
    ensures { IfOk result (λ copies. copies.items ≡ slots.now) }
{
    let mut copies = Vec::with_capacity(alloc, slots.len())?;
    for slot in slots {
        copies.push(copy_of(alloc, slot)?)?;
    }
    Ok(copies)
}

/// What the variables of each of some processes begin as.
fn first_slots(alloc: Global, processes: &[Process]) -> Result<Vec<Vec<Slot>>, AllocError>
    ensures { IfOk result (λ slots. map (λ s. s.items) slots.items ≡ map (λ p. p.first) processes.now) }
{
    let mut slots = Vec::with_capacity(alloc, processes.len())?;
    for process in processes {
        slots.push(copies_of(alloc, process.first.as_slice())?)?;
    }
    Ok(slots)
}

/// Room for so many paths.
fn room_for_paths(alloc: Global, count: usize) -> Result<Vec<Path>, AllocError>
    ensures { IfOk result (λ paths. length paths.items ≡ count) }
{
    let path = Path {
        age: 0,
        delay: Delay::One(0),
        on: false,
    };
    vec![in alloc; path; count]
}

impl Store {
    /// The variables of all processes as they begin, which fits at each now. It takes time and memory in proportion to them.
    pub fn new(alloc: Global, program: &Program) -> Result<Store, AllocError>
        ensures first { IfOk result (λ store. store.listed ≡ map (λ p. p.first) program.now.processes) }
        ensures fits { IfOk result (λ store. (now : ℕ) → FitsStore program.now now store) }
    {
        Ok(Store {
            processes: first_slots(alloc, program.processes())?,
            paths: room_for_paths(alloc, program.most_paths())?,
        })
    }

    /// Executes what is executed as the process of a number.
    pub(crate) fn execute(
        &mut self,
        number: usize,
        steps: &Executed,
        checks_on: bool,
        now: Time,
        inputs: &[Input],
        effects: &mut Effects,
    )
        requires number { number < length self.old.listed }
        requires now { now ≤ 2 ^ 60 }
        requires times { HaveTimes now (slots_of self.old number) }
        requires places { HasRoom self.old.room steps.now }
        requires short { HasShortDelays steps.now }
        requires none { effects.old.listed ≡ [] }
        requires room { most_effects_of steps.now ≤ effects.old.room }
        ensures slots { self.new ≡ record self.old {
          listed = slice_set self.old.listed number (activation inputs.now checks_on now (slots_of self.old number) steps.now).slots;
        } }
        ensures effects { effects.new.listed ≡ (activation inputs.now checks_on now (slots_of self.old number) steps.now).effects }
        ensures room { effects.new.room ≡ effects.old.room }
        ensures times { HaveTimes now (activation inputs.now checks_on now (slots_of self.old number) steps.now).slots }
        ensures ends { All (EndsInTime now) effects.new.listed }
    {
        let slots = self.processes[number].as_mut_slice();
        let places = self.paths.as_mut_slice();
        execute_steps(steps, checks_on, now, inputs, slots, places, effects);
    }
}
