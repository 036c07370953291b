//! What the timing checks of a process do. It takes no memory.

ghost use Rattle.std.specs.Prelude.{◌≡◌, ◌<◌, ◌≤◌, ◌&&◌, ◌++◌, ℕ, is_some, length, if◌then◌else◌};
ghost use Rattle.vital_machine.specs.Fits.{HasTimes, HaveTimes};
ghost use Rattle.vital_machine.specs.Machine as spec;
ghost use Rattle.vital_machine.specs.Seen.{lent, seen_of};
ghost use Rattle.vital_logic.specs.declared.level.Level.TheVariants as level;

use crate::effect::Effect;
use crate::effects::Effects;
use crate::functionality::put_level;
use crate::input::Input;
use crate::seen::Seen;
use crate::slot::Slot;
use crate::steps::{CheckKindStep, CheckStep, RecoveryStep, ReferenceStep};
use crate::truths::truth;
use vital_base::Time;
use vital_logic::Level;
use vital_timing_checks::{PulseLimits, RecoveryLimits, SetupLimits, Violated};

/// What a check is called with.
#[derive(Clone, Copy)]
pub struct CheckCall {
    pub now: Time,
    pub test: Level,
    pub enabled: bool,
}

/// Checks setup and hold.
fn check_setup_hold(
    call: CheckCall,
    reference: Level,
    step: &ReferenceStep,
    limits: &SetupLimits,
    slot: &mut Slot,
) -> Option<Violated>
    requires { HasTimes call.now slot.old }
    ensures slot { slot.new ≡ (spec.setup_hold (spec.called call) reference step.now limits.now slot.old).0 }
    ensures found { result ≡ (spec.setup_hold (spec.called call) reference step.now limits.now slot.old).1 }
    ensures times { (later : ℕ) → call.now ≤ later → HasTimes later slot.new }
{
    match slot {
        Slot::SetupHold(kept) => {
            kept.check(
                call.now,
                call.test,
                reference,
                step.edges,
                limits,
                call.enabled,
            )
        }
        _ => None,
    }
}

/// Checks recovery and removal.
fn check_recovery(
    call: CheckCall,
    reference: Level,
    step: &ReferenceStep,
    limits: &RecoveryLimits,
    slot: &mut Slot,
) -> Option<Violated>
    requires { HasTimes call.now slot.old }
    ensures slot { slot.new ≡ (spec.recovery (spec.called call) reference step.now limits.now slot.old).0 }
    ensures found { result ≡ (spec.recovery (spec.called call) reference step.now limits.now slot.old).1 }
    ensures times { (later : ℕ) → call.now ≤ later → HasTimes later slot.new }
{
    match slot {
        Slot::RecRem(kept) => {
            kept.check(
                call.now,
                call.test,
                reference,
                step.edges,
                limits,
                call.enabled,
            )
        }
        _ => None,
    }
}

/// Checks periods and pulse widths.
fn check_period(call: CheckCall, limits: &PulseLimits, slot: &mut Slot) -> Option<Violated>
    requires { HasTimes call.now slot.old }
    ensures slot { slot.new ≡ (spec.period (spec.called call) limits.now slot.old).0 }
    ensures found { result ≡ (spec.period (spec.called call) limits.now slot.old).1 }
    ensures times { (later : ℕ) → call.now ≤ later → HasTimes later slot.new }
{
    match slot {
        Slot::PeriodPulse(kept) => kept.check(call.now, call.test, limits, call.enabled),
        _ => None,
    }
}

/// The limits of a check of recovery and removal, where the tested bit is active at 0 or at 1.
fn recovery_limits(step: &RecoveryStep, seen: &Seen<'_>) -> RecoveryLimits
    ensures { result ≡ spec.recovery_limits (lent seen.now) step.now }
{
    RecoveryLimits {
        recovery: step.recovery,
        removal: step.removal,
        active_low: truth(&step.active_low, seen),
    }
}

/// What a check finds; what it keeps is new then.
fn find_violation(
    kind: &CheckKindStep,
    call: CheckCall,
    inputs: &[Input],
    number: usize,
    slots: &mut [Slot],
) -> Option<Violated>
    requires { HaveTimes call.now slots.old }
    ensures slots { slots.new ≡ spec.changed number (λ held. (spec.check_of (seen_of inputs.now slots.old) (spec.called call) kind.now held).0) slots.old }
    ensures found { result ≡ spec.given_by number (spec.check_of (seen_of inputs.now slots.old) (spec.called call) kind.now) slots.old }
    ensures times { (later : ℕ) → call.now ≤ later → HaveTimes later slots.new }
{
    if number >= slots.len() {
        return None;
    }
    let seen = Seen { inputs, slots };
    match kind {
        CheckKindStep::SetupHold(reference, limits) => {
            let level = seen.bit(reference.signal as usize);
            check_setup_hold(call, level, reference, limits, &mut slots[number])
        }
        CheckKindStep::RecoveryRemoval(reference, step) => {
            let level = seen.bit(reference.signal as usize);
            let limits = recovery_limits(step, &seen);
            check_recovery(call, level, reference, &limits, &mut slots[number])
        }
        CheckKindStep::PeriodPulse(limits) => check_period(call, limits, &mut slots[number]),
    }
}

/// The bit that a tested one is compared with.
fn reference_of(kind: &CheckKindStep) -> Option<u32>
    ensures { result ≡ spec.reference_of kind.now }
{
    match kind {
        CheckKindStep::SetupHold(reference, _) | CheckKindStep::RecoveryRemoval(reference, _) => {
            Some(reference.signal)
        }
        CheckKindStep::PeriodPulse(_) => None,
    }
}

/// The level of a violation variable: X where a violation is found and XOn holds, else 0.
fn violation_level(found: Option<Violated>, x_on: bool) -> Level
    ensures { result ≡ (if is_some found && x_on then level.X else level.Zero) }
{
    if found.is_some() && x_on {
        Level::X
    } else {
        Level::Zero
    }
}

/// Lists the message of a violation where one is found and MsgOn holds.
fn put_violation(step: &CheckStep, msg_on: bool, found: Option<Violated>, effects: &mut Effects)
    requires { length effects.old.listed < effects.old.room }
    ensures { effects.new ≡ record effects.old { listed = effects.old.listed ++ spec.violation_said step.now msg_on found } }
{
    if let Some(violated) = found {
        if msg_on {
            effects.put(Effect::Violation {
                test: step.test,
                reference: reference_of(&step.kind),
                violated,
            });
        }
    }
}

/// Calls a check: its violation variable becomes X where it finds a violation and XOn holds, else 0, and a message is made where it finds
/// one and MsgOn holds.
pub fn check(
    step: &CheckStep,
    now: Time,
    inputs: &[Input],
    slots: &mut [Slot],
    effects: &mut Effects,
)
    requires times { HaveTimes now slots.old }
    requires room { length effects.old.listed < effects.old.room }
    ensures done { spec.state_of slots.new effects.new ≡ spec.check_step inputs.now now (spec.state_of slots.old effects.old) step.now }
    ensures room { effects.new.room ≡ effects.old.room }
    ensures times { (later : ℕ) → now ≤ later → HaveTimes later slots.new }
{
    let seen = Seen { inputs, slots };
    let call = CheckCall {
        now,
        test: seen.bit(step.test as usize),
        enabled: truth(&step.check_enabled, &seen),
    };
    let x_on = truth(&step.x_on, &seen);
    let msg_on = truth(&step.msg_on, &seen);
    let found = find_violation(&step.kind, call, inputs, step.kept, slots);
    put_level(step.violation, violation_level(found, x_on), slots);
    put_violation(step, msg_on, found, effects);
}
