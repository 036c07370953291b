//! A call of a path delay.

ghost use Rattle.std.specs.Prelude.{◌≡◌, ◌+◌, ◌^◌, ◌<◌, ◌≤◌, All, IfSome};
ghost use Rattle.vital_path_delay.specs.Calls.{path_delay, path_start};
ghost use Rattle.vital_path_delay.specs.Within.{IsWithin};
ghost use Rattle.vital_path_delay.specs.Kept.{HasSmallTimes};

use crate::glitch_data::GlitchData;
use crate::path::{Path, select};
use crate::scheduling::glitch;
use crate::send::GlitchOut;
use vital_base::Time;
use vital_logic::Level;
use vital_timing::{Delay, GlitchMode};

/// Ends the call at once? So it does where the output has the value already, and no other change is pending.
pub fn path_start(kept: &GlitchData, now: Time, value: Level) -> bool
    ensures { result ≡ path_start kept.now now value }
{
    kept.is_settled(now) && kept.is_last(value)
}

/// A whole call (IEEE 1076.4, VitalPathDelay, VitalPathDelay01 and VitalPathDelay01Z): it chooses the delay of the change and sends the
/// value after it; None where it ends at once. Times are femtoseconds, now at most 2^60, and all delays at most 2^50.
pub fn path_delay(
    kept: &mut GlitchData,
    paths: &[Path],
    default: &Delay,
    mode: GlitchMode,
    x_on: bool,
    now: Time,
    value: Level,
) -> Option<GlitchOut>
    requires time { now ≤ 2 ^ 60 }
    requires paths { All (λ path. IsWithin (2 ^ 50) path.delay) paths.now }
    requires default { IsWithin (2 ^ 50) default.now }
    requires small { HasSmallTimes kept.old }
    ensures out { result ≡ (path_delay paths.now default.now mode x_on now kept.old value).out }
    ensures kept { kept.new ≡ (path_delay paths.now default.now mode x_on now kept.old value).kept }
    ensures stays_small { HasSmallTimes kept.new }
    ensures first_time { IfSome result (λ out. now + out.first.delay < 2 ^ 61) }
    ensures second_time { IfSome result (λ out. IfSome out.second (λ send. now + send.delay < 2 ^ 61)) }
{
    if path_start(kept, now, value) {
        return None;
    }
    let delay = select(paths, value, kept.last_value, default);
    kept.last_value = value;
    Some(glitch(kept, mode, x_on, now, value, delay))
}
