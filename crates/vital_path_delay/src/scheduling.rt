//! What a path delay sends to its output for a change of it.

ghost use Rattle.std.specs.Prelude.{◌≡◌, ◌+◌, ◌^◌, ◌<◌, ◌≤◌, IfSome};
ghost use Rattle.vital_path_delay.specs.Kept.{HasSmallTimes};
ghost use Rattle.vital_path_delay.specs.Scheduling.{alone, assigned, assigned_behind, glitch, glitched, kept_after, sent, watched};

use crate::glitch_data::GlitchData;
use crate::send::{GlitchOut, Send};
use vital_base::{Kind, Time};
use vital_logic::Level;
use vital_timing::GlitchMode;

/// Sends a value to the output after a delay, and beside it X where the change makes a glitch and `x_on` asks for it (IEEE 1076.4,
/// VitalPathDelay). All of `kept` is new then but the last value. Times are femtoseconds; now, the delay, and what is kept are small
/// enough that no time passes 2^61.
pub fn glitch(
    kept: &mut GlitchData,
    mode: GlitchMode,
    x_on: bool,
    now: Time,
    value: Level,
    delay: Time,
) -> GlitchOut
    requires time { now + delay < 2 ^ 61 }
    requires small { HasSmallTimes kept.old }
    ensures out { result ≡ (glitch mode x_on now kept.old value delay).out }
    ensures kept { kept.new ≡ (glitch mode x_on now kept.old value delay).kept }
    ensures stays_small { HasSmallTimes kept.new }
    ensures first_time { now + result.first.delay < 2 ^ 61 }
    ensures second_time { IfSome result.second (λ send. now + send.delay < 2 ^ 61) }
{
    match mode {
        GlitchMode::OnEvent => {
            let x_delay = kept.glitch_time.saturating_sub(now);
            watch(kept, x_on, x_delay, now, value, delay)
        }
        GlitchMode::OnDetect => watch(kept, x_on, 0, now, value, delay),
        GlitchMode::Inertial => assign(kept, Kind::Inertial, now, value, delay),
        GlitchMode::Transport => assign(kept, Kind::Transport, now, value, delay),
    }
}

/// Sends a value after a delay.
fn assign(kept: &mut GlitchData, kind: Kind, now: Time, value: Level, delay: Time) -> GlitchOut
    requires { now + delay < 2 ^ 61 }
    ensures out { result ≡ alone (sent kind value delay) }
    ensures kept { kept.new ≡ record kept.old { sched_time = now + delay; sched_value = value } }
{
    kept.sched_time = now + delay;
    kept.sched_value = value;
    GlitchOut {
        first: Send { kind, value, delay },
        second: None,
        glitched: false,
    }
}

/// Sends a value after a delay, and looks for a glitch; X then comes after a delay of its own.
fn watch(
    kept: &mut GlitchData,
    x_on: bool,
    x_delay: Time,
    now: Time,
    value: Level,
    delay: Time,
) -> GlitchOut
    requires { now + delay < 2 ^ 61 }
    ensures out { result ≡ (watched x_on x_delay now kept.old value delay).out }
    ensures kept { kept.new ≡ kept_after now value kept.old (watched x_on x_delay now kept.old value delay) }
{
    if kept.is_settled(now) || kept.comes_first(now + delay) {
        assign_first(kept, now, value, delay)
    } else if kept.has_glitch_passed(now) {
        assign_behind(kept, now, value, delay)
    } else if kept.is_awaited(value) {
        let soon = delay.min(kept.sched_time - now);
        assign_first(kept, now, value, soon)
    } else {
        assign_glitch(kept, x_on, x_delay, now, value, delay)
    }
}

/// Sends a value after a delay, as the first change that is pending.
fn assign_first(kept: &mut GlitchData, now: Time, value: Level, delay: Time) -> GlitchOut
    requires { now + delay < 2 ^ 61 }
    ensures out { result ≡ (assigned now value delay).out }
    ensures kept { kept.new ≡ kept_after now value kept.old (assigned now value delay) }
{
    kept.glitch_time = now + delay;
    assign(kept, Kind::Inertial, now, value, delay)
}

/// Sends a value after a delay, behind a glitch; not later than before where it is the value that was assigned last.
fn assign_behind(kept: &mut GlitchData, now: Time, value: Level, delay: Time) -> GlitchOut
    requires time { now + delay < 2 ^ 61 }
    requires pending { now ≤ kept.old.sched_time }
    ensures out { result ≡ (assigned_behind now kept.old value delay).out }
    ensures kept { kept.new ≡ kept_after now value kept.old (assigned_behind now kept.old value delay) }
{
    if kept.is_last(value) {
        let soon = delay.min(kept.sched_time - now);
        assign(kept, Kind::Inertial, now, value, soon)
    } else {
        assign(kept, Kind::Inertial, now, value, delay)
    }
}

/// Sends a value after a delay, and beside it X where it is asked for.
fn assign_glitch(
    kept: &mut GlitchData,
    x_on: bool,
    x_delay: Time,
    now: Time,
    value: Level,
    delay: Time,
) -> GlitchOut
    requires { now + delay < 2 ^ 61 }
    ensures out { result ≡ (glitched kept.old x_on x_delay value delay).out }
    ensures kept { kept.new ≡ kept_after now value kept.old (glitched kept.old x_on x_delay value delay) }
{
    if x_on {
        let x = Send {
            kind: Kind::Inertial,
            value: Level::X,
            delay: x_delay,
        };
        let change = assign(kept, Kind::Transport, now, value, delay).first;
        GlitchOut {
            first: x,
            second: Some(change),
            glitched: true,
        }
    } else {
        let change = assign(kept, Kind::Inertial, now, value, delay).first;
        GlitchOut {
            first: change,
            second: None,
            glitched: true,
        }
    }
}
