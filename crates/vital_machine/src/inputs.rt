//! What the bits of a cell are.

ghost use Rattle.std.specs.Prelude.{◌≡◌, ◌<◌, length, replicate, slice_set, IfOk};
ghost use Rattle.vital_machine.specs.Fits.{FitsInputs};
ghost use Rattle.vital_machine.specs.Inputs.{absent};

use crate::input::Input;
use crate::program::Program;
use std::alloc::{AllocError, Global};
use std::marker::Model;
use vital_base::Time;
use vital_logic::Level;

/// What each bit of the ports and of the internal signals of a cell is. Contracts see it as the list of them.
#[derive(Drop)]
pub struct Inputs {
    inputs: Vec<Input>,
}

impl Model for Inputs {
    ghost use Rattle.std.specs.Prelude.{List};
    ghost use Rattle.vital_machine.specs.declared.input.Input.{Input};

    ghost Value = { List Input };

    ghost view = { λ i. i.inputs.items };
}

/// What a bit is before anything is known of it.
const UNKNOWN: Input = Input {
    value: Level::U,
    last: Level::U,
    age: 0,
};

impl Inputs {
    /// The bits of the cell of a program, each of which is U.
    pub fn reserve(alloc: Global, program: &Program) -> Result<Inputs, AllocError>
        ensures unknown { IfOk result (λ inputs. inputs ≡ replicate program.now.bits absent) }
        ensures fits { IfOk result (λ inputs. FitsInputs program.now inputs) }
    {
        Ok(Inputs {
            inputs: vec![in alloc; UNKNOWN; program.bits()]?,
        })
    }

    /// What they are, in order.
    pub(crate) fn as_slice(&self) -> &[Input]
        ensures { result.now ≡ self.now }
    {
        self.inputs.as_slice()
    }

    /// Sets what the bit of a number is: its value, its value before its last event, and how long ago that was, in femtoseconds. It takes
    /// no memory.
    pub fn set(&mut self, signal: u32, value: Level, last: Level, age: Time)
        requires { signal < length self.old }
        ensures { self.new ≡ slice_set self.old signal (record { value = value; last = last; age = age }) }
    {
        self.inputs[signal as usize] = Input { value, last, age };
    }
}
