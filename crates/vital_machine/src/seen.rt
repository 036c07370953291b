//! What the expressions of a process see while it is activated.

ghost use Rattle.std.specs.Prelude.{◌≡◌, slice_index_or};
ghost use Rattle.vital_machine.specs.Seen as spec;
ghost use Rattle.vital_machine.specs.Slots.{levels_at};
ghost use Rattle.vital_logic.specs.declared.level.Level.TheVariants as level;

use crate::input::Input;
use crate::slot::Slot;
use vital_base::Time;
use vital_logic::Level;

/// What the expressions of a process see while it is activated: what the bits of the ports and the internal signals of its cell are, and
/// what its variables hold, each by their numbers.
#[derive(Clone, Copy)]
pub struct Seen<'a> {
    pub inputs: &'a [Input],
    pub slots: &'a [Slot],
}

impl Seen<'_> {
    /// The value of the bit of a number; U where there is none.
    pub(crate) fn bit(&self, number: usize) -> Level
        ensures { result ≡ spec.bit (spec.lent self.now) number }
    {
        match self.inputs.get(number) {
            Some(input) => input.value,
            None => Level::U,
        }
    }

    /// How long ago the last event of the bit of a number was, in femtoseconds; 0 where there is none.
    pub(crate) fn age(&self, number: usize) -> Time
        ensures { result ≡ spec.age (spec.lent self.now) number }
    {
        match self.inputs.get(number) {
            Some(input) => input.age,
            None => 0,
        }
    }

    /// The level at a number of places behind the left end of the variable of a number; U where there is none.
    pub(crate) fn element(&self, number: usize, offset: usize) -> Level
        ensures { result ≡ slice_index_or (levels_at (spec.lent self.now).slots number) offset level.U }
    {
        match self.slots.get(number) {
            Some(slot) => slot.element(offset),
            None => Level::U,
        }
    }
}
