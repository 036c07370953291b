//! The activation of a process.

ghost use Rattle.std.specs.Prelude.{◌≡◌, ◌<◌, ◌≤◌, ◌^◌, All, ℕ, length, slice_set};
ghost use Rattle.vital_machine.specs.Fits.{EffectIsOfCell, EndsInTime, FitsEffects, FitsInputs, FitsStore, StepsAreOfCell};
ghost use Rattle.vital_machine.specs.Machine.{activated};

use crate::effects::Effects;
use crate::inputs::Inputs;
use crate::program::Program;
use crate::store::Store;
use vital_base::Time;

/// Activates the process of a number, counted from 0, at a time, now, in femtoseconds, where the bits of its cell are these: its
/// statements are executed one after the other (IEEE 1076-1993, 9.2), and what they do is listed in place of what was. The store has to
/// fit the program at now, which is at most 2^60; it then fits at now and at each later time, and each assignment puts off its value to
/// less than 2^61. It takes no memory.
pub fn activate(
    program: &Program,
    process: u32,
    now: Time,
    store: &mut Store,
    inputs: &Inputs,
    effects: &mut Effects,
)
    requires process { process < length program.now.processes }
    requires now { now ≤ 2 ^ 60 }
    requires store { FitsStore program.now now store.old }
    requires inputs { FitsInputs program.now inputs.now }
    requires effects { FitsEffects program.now effects.old }
    ensures slots { store.new ≡ record store.old {
      listed = slice_set store.old.listed process (activated program.now process now store.old inputs.now).slots;
    } }
    ensures effects { effects.new ≡ record effects.old {
      listed = (activated program.now process now store.old inputs.now).effects;
    } }
    ensures store_fits { (later : ℕ) → now ≤ later → FitsStore program.now later store.new }
    ensures effects_fit { FitsEffects program.now effects.new }
    ensures ends { All (EndsInTime now) effects.new.listed }
    ensures numbers { (drivers : ℕ) → All (λ p. StepsAreOfCell drivers program.now.bits p.steps) program.now.processes
        → All (EffectIsOfCell drivers program.now.bits) effects.new.listed }
{
    effects.clear();
    let number = process as usize;
    let steps = &program.processes()[number].steps;
    let checks_on = program.timing_checks_on();
    store.execute(number, steps, checks_on, now, inputs.as_slice(), effects);
}
