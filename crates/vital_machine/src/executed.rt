//! What is executed as a process, one step after the other. It takes no memory.

ghost use Rattle.std.specs.Prelude.{◌≡◌, ◌+◌, ◌*◌, ◌≤◌, ◌^◌, All, [], ℕ, length};
ghost use Rattle.std.specs.List.{fold};
ghost use Rattle.vital_machine.specs.Fits.{AreShort, EndsInTime, HasRoom, HasShortDelays, HaveTimes, most_effects_of};
ghost use Rattle.vital_machine.specs.Machine as spec;
ghost use Rattle.vital_path_delay.specs.Within.{IsWithin};

use crate::checks::check;
use crate::effect::Effect;
use crate::effects::Effects;
use crate::functionality::execute;
use crate::input::Input;
use crate::path_delays::delay;
use crate::slot::Slot;
use crate::steps::{CheckStep, Executed, FunctionalStep, PathDelayStep, ProcessSteps, WireStep};
use vital_base::{Kind, Time};
use vital_path_delay::{Path, Send, calc_delay};

/// Sends the value of a port to its signal by transport after the delay of its last change.
fn send_wire(step: &WireStep, inputs: &[Input], effects: &mut Effects)
    requires delay { IsWithin (2 ^ 50) step.now.delay }
    requires none { effects.old.listed ≡ [] }
    requires room { 1 ≤ effects.old.room }
    ensures done { effects.new ≡ record effects.old { listed = spec.wire_effects inputs.now step.now } }
    ensures ends { (now : ℕ) → now ≤ 2 ^ 60 → All (EndsInTime now) effects.new.listed }
{
    if let Some(input) = inputs.get(step.port) {
        let send = Send {
            kind: Kind::Transport,
            value: input.value,
            delay: calc_delay(input.value, input.last, &step.delay),
        };
        effects.put(Effect::Assign {
            driver: step.driver,
            send,
        });
    }
}

/// Calls timing checks, in order.
fn check_all(
    steps: &[CheckStep],
    now: Time,
    inputs: &[Input],
    slots: &mut [Slot],
    effects: &mut Effects,
)
    requires times { HaveTimes now slots.old }
    requires room { length effects.old.listed + length steps.now ≤ effects.old.room }
    ensures done { spec.state_of slots.new effects.new ≡ fold (spec.check_step inputs.now now) (spec.state_of slots.old effects.old) steps.now }
    ensures room { effects.new.room ≡ effects.old.room }
    ensures times { HaveTimes now slots.new }
{
    for step in steps {
        check(step, now, inputs, slots, effects);
    }
}

/// Executes the statements of the functionality, in order.
fn execute_all(steps: &[FunctionalStep], inputs: &[Input], slots: &mut [Slot])
    ensures { slots.new ≡ fold (spec.functional_step inputs.now) slots.old steps.now }
{
    for step in steps {
        execute(step, inputs, slots);
    }
}

/// Calls path delays, in order, whose paths are put to the first of some places.
fn delay_all(
    steps: &[PathDelayStep],
    now: Time,
    inputs: &[Input],
    slots: &mut [Slot],
    places: &mut [Path],
    effects: &mut Effects,
)
    requires now { now ≤ 2 ^ 60 }
    requires times { HaveTimes now slots.old }
    requires places { All (λ d. length d.paths ≤ length places.old) steps.now }
    requires short { All AreShort steps.now }
    requires room { length effects.old.listed + 3 * length steps.now ≤ effects.old.room }
    requires ends { All (EndsInTime now) effects.old.listed }
    ensures done { spec.state_of slots.new effects.new ≡ fold (spec.delay_step inputs.now now) (spec.state_of slots.old effects.old) steps.now }
    ensures room { effects.new.room ≡ effects.old.room }
    ensures times { HaveTimes now slots.new }
    ensures ends { All (EndsInTime now) effects.new.listed }
{
    for step in steps {
        delay(step, now, inputs, slots, places, effects);
    }
}

/// Calls the timing checks of a process, where they are executed.
fn check_if_on(
    steps: &ProcessSteps,
    checks_on: bool,
    now: Time,
    inputs: &[Input],
    slots: &mut [Slot],
    effects: &mut Effects,
)
    requires times { HaveTimes now slots.old }
    requires room { length effects.old.listed + length steps.now.checks ≤ effects.old.room }
    ensures done { spec.state_of slots.new effects.new ≡ spec.checked inputs.now checks_on now (spec.state_of slots.old effects.old) steps.now.checks }
    ensures room { effects.new.room ≡ effects.old.room }
    ensures times { HaveTimes now slots.new }
{
    if checks_on {
        check_all(steps.checks.as_slice(), now, inputs, slots, effects);
    }
}

/// Executes the statements of a process.
fn execute_process(
    steps: &ProcessSteps,
    checks_on: bool,
    now: Time,
    inputs: &[Input],
    slots: &mut [Slot],
    places: &mut [Path],
    effects: &mut Effects,
)
    requires now { now ≤ 2 ^ 60 }
    requires times { HaveTimes now slots.old }
    requires places { All (λ d. length d.paths ≤ length places.old) steps.now.path_delays }
    requires short { All AreShort steps.now.path_delays }
    requires none { effects.old.listed ≡ [] }
    requires room { length steps.now.checks + 3 * length steps.now.path_delays ≤ effects.old.room }
    ensures done { spec.state_of slots.new effects.new ≡ spec.process inputs.now checks_on now slots.old steps.now }
    ensures room { effects.new.room ≡ effects.old.room }
    ensures times { HaveTimes now slots.new }
    ensures ends { All (EndsInTime now) effects.new.listed }
{
    check_if_on(steps, checks_on, now, inputs, slots, effects);
    execute_all(steps.functionality.as_slice(), inputs, slots);
    delay_all(
        steps.path_delays.as_slice(),
        now,
        inputs,
        slots,
        places,
        effects,
    );
}

/// Executes what is executed as a process.
pub fn execute_steps(
    steps: &Executed,
    checks_on: bool,
    now: Time,
    inputs: &[Input],
    slots: &mut [Slot],
    places: &mut [Path],
    effects: &mut Effects,
)
    requires now { now ≤ 2 ^ 60 }
    requires times { HaveTimes now slots.old }
    requires places { HasRoom (length places.old) steps.now }
    requires short { HasShortDelays steps.now }
    requires none { effects.old.listed ≡ [] }
    requires room { most_effects_of steps.now ≤ effects.old.room }
    ensures done { spec.state_of slots.new effects.new ≡ spec.activation inputs.now checks_on now slots.old steps.now }
    ensures room { effects.new.room ≡ effects.old.room }
    ensures times { HaveTimes now slots.new }
    ensures ends { All (EndsInTime now) effects.new.listed }
{
    match steps {
        Executed::Wire(step) => send_wire(step, inputs, effects),
        Executed::Process(steps) => {
            execute_process(steps, checks_on, now, inputs, slots, places, effects);
        }
    }
}
