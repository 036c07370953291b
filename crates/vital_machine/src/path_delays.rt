//! What the path delays of a process do. It takes no memory.

ghost use Rattle.std.specs.Prelude.{◌≡◌, ◌+◌, ◌<◌, ◌≤◌, ◌^◌, ◌++◌, ◌∷◌, [], All, ℕ, IfSome, length, map};
ghost use Rattle.std.specs.Option.{option_map_or};
ghost use Rattle.vital_machine.specs.Fits.{AreShort, EndsInTime, HasTimes, HaveTimes};
ghost use Rattle.vital_machine.specs.Machine as spec;
ghost use Rattle.vital_machine.specs.Seen.{lent};
ghost use Rattle.vital_machine.specs.declared.effect.Effect.TheVariants as effect;
ghost use Rattle.vital_path_delay.specs.Within.{IsWithin};

use crate::effect::Effect;
use crate::effects::Effects;
use crate::input::Input;
use crate::levels::level;
use crate::seen::Seen;
use crate::slot::Slot;
use crate::steps::{PathDelayStep, PathStep};
use crate::truths::truth;
use vital_base::Time;
use vital_logic::Level;
use vital_path_delay::{GlitchOut, Path, Send, path_delay};

/// What the path of a step is now.
fn timed(step: &PathStep, seen: &Seen<'_>) -> Path
    ensures { result ≡ spec.timed (lent seen.now) step.now }
{
    Path {
        age: seen.age(step.signal as usize),
        delay: step.delay,
        on: truth(&step.condition, seen),
    }
}

/// Puts what the paths of steps are now to places, which are as many.
fn put_paths(steps: &[PathStep], seen: &Seen<'_>, places: &mut [Path])
    requires { length places.old ≡ length steps.now }
    ensures { places.new ≡ map (spec.timed (lent seen.now)) steps.now }
{
    for (number, place) in places.iter_mut().enumerate() {
        *place = timed(&steps[number], seen);
    }
}

/// Lists an assignment.
fn put_send(driver: u32, send: Send, effects: &mut Effects)
    requires { length effects.old.listed < effects.old.room }
    ensures { effects.new ≡ record effects.old { listed = effects.old.listed ++ effect.Assign driver send ∷ [] } }
{
    effects.put(Effect::Assign { driver, send });
}

/// Lists the message of a glitch where there is one and MsgOn holds, and then what is sent.
fn put_out(step: &PathDelayStep, msg_on: bool, out: GlitchOut, effects: &mut Effects)
    requires { length effects.old.listed + 3 ≤ effects.old.room }
    ensures { effects.new ≡ record effects.old { listed = effects.old.listed ++ spec.said step.now msg_on out } }
{
    if out.glitched && msg_on {
        effects.put(Effect::Glitch {
            port: step.out_signal,
        });
    }
    put_send(step.driver, out.first, effects);
    if let Some(second) = out.second {
        put_send(step.driver, second, effects);
    }
}

/// What a path delay sends, if anything; what it keeps is new then.
fn find_out(
    step: &PathDelayStep,
    paths: &[Path],
    x_on: bool,
    now: Time,
    value: Level,
    slot: &mut Slot,
) -> Option<GlitchOut>
    requires now { now ≤ 2 ^ 60 }
    requires times { HasTimes now slot.old }
    requires paths { All (λ path. IsWithin (2 ^ 50) path.delay) paths.now }
    requires default { IsWithin (2 ^ 50) step.now.default_delay }
    ensures slot { slot.new ≡ (spec.delay_of step.now paths.now x_on now value slot.old).0 }
    ensures out { result ≡ (spec.delay_of step.now paths.now x_on now value slot.old).1 }
    ensures times { (later : ℕ) → now ≤ later → HasTimes later slot.new }
    ensures first_time { IfSome result (λ out. now + out.first.delay < 2 ^ 61) }
    ensures second_time { IfSome result (λ out. IfSome out.second (λ send. now + send.delay < 2 ^ 61)) }
{
    match slot {
        Slot::Glitch(kept) => {
            path_delay(
                kept,
                paths,
                &step.default_delay,
                step.mode,
                x_on,
                now,
                value,
            )
        }
        _ => None,
    }
}

/// The same of the variable of a number, if there is one.
fn find_out_at(
    step: &PathDelayStep,
    paths: &[Path],
    x_on: bool,
    now: Time,
    value: Level,
    slots: &mut [Slot],
) -> Option<GlitchOut>
    requires now { now ≤ 2 ^ 60 }
    requires times { HaveTimes now slots.old }
    requires paths { All (λ path. IsWithin (2 ^ 50) path.delay) paths.now }
    requires default { IsWithin (2 ^ 50) step.now.default_delay }
    ensures slots { slots.new ≡ spec.changed step.now.glitch_data (λ held. (spec.delay_of step.now paths.now x_on now value held).0) slots.old }
    ensures out { result ≡ spec.given_by step.now.glitch_data (spec.delay_of step.now paths.now x_on now value) slots.old }
    ensures times { (later : ℕ) → now ≤ later → HaveTimes later slots.new }
    ensures first_time { IfSome result (λ out. now + out.first.delay < 2 ^ 61) }
    ensures second_time { IfSome result (λ out. IfSome out.second (λ send. now + send.delay < 2 ^ 61)) }
{
    let number = step.glitch_data;
    if number < slots.len() {
        find_out(step, paths, x_on, now, value, &mut slots[number])
    } else {
        None
    }
}

/// Lists what is sent, if anything, and before it the message of a glitch.
fn put_found(step: &PathDelayStep, msg_on: bool, out: Option<GlitchOut>, effects: &mut Effects)
    requires { length effects.old.listed + 3 ≤ effects.old.room }
    ensures { effects.new ≡ record effects.old { listed = effects.old.listed ++ option_map_or (spec.said step.now msg_on) out [] } }
{
    if let Some(out) = out {
        put_out(step, msg_on, out, effects);
    }
}

/// Calls a path delay, whose paths are put to the first of some places.
pub fn delay(
    step: &PathDelayStep,
    now: Time,
    inputs: &[Input],
    slots: &mut [Slot],
    places: &mut [Path],
    effects: &mut Effects,
)
    requires now { now ≤ 2 ^ 60 }
    requires times { HaveTimes now slots.old }
    requires places { length step.now.paths ≤ length places.old }
    requires short { AreShort step.now }
    requires room { length effects.old.listed + 3 ≤ effects.old.room }
    ensures done { spec.state_of slots.new effects.new ≡ spec.delay_step inputs.now now (spec.state_of slots.old effects.old) step.now }
    ensures room { effects.new.room ≡ effects.old.room }
    ensures times { (later : ℕ) → now ≤ later → HaveTimes later slots.new }
    ensures ends { All (EndsInTime now) effects.old.listed → All (EndsInTime now) effects.new.listed }
{
    let seen = Seen { inputs, slots };
    let paths = &mut places[..step.paths.len()];
    put_paths(step.paths.as_slice(), &seen, paths);
    let value = level(&step.out_temp, &seen);
    let x_on = truth(&step.x_on, &seen);
    let msg_on = truth(&step.msg_on, &seen);
    let out = find_out_at(step, paths, x_on, now, value, slots);
    put_found(step, msg_on, out, effects);
}
