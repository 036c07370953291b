ghost use Rattle.std.specs.Prelude.{◌≡◌, ◌≤◌, ℕ, min, All, IfSome};
ghost use Rattle.std.specs.List.{reduce};
ghost use Rattle.vital_path_delay.specs.Paths.{ages, delays, enabled, of_age, select};
ghost use Rattle.vital_path_delay.specs.Within.{IsWithin};

use crate::change::calc_delay;
use vital_base::Time;
use vital_logic::Level;
use vital_timing::Delay;

/// A path from an input to the output of a path delay (IEEE 1076.4, VitalPathType).
#[derive(Clone, Copy, PartialEq, Eq)]
pub struct Path {
    /// How long ago the input changed, in femtoseconds.
    pub age: Time,
    /// How long a change of the output takes on the path.
    pub delay: Delay,
    /// Is the path enabled?
    pub on: bool,
}

/// The delay of a change of the output, in femtoseconds from now on. Of the paths that are enabled those count whose input changed
/// last: it is what their age leaves of the least of their delays. Where the age is greater than that, and where no path is enabled,
/// it is the delay of the default. It stays within each limit within which all these delays do.
pub fn select(paths: &[Path], new: Level, old: Level, default: &Delay) -> Time
    ensures delay { result ≡ select paths.now new old default.now }
    ensures within { (limit : ℕ) → All (λ path. IsWithin limit path.delay) paths.now → IsWithin limit default.now → result ≤ limit }
{
    match least_age(paths) {
        Some(age) => match least_delay(paths, age, new, old) {
            Some(delay) if age <= delay => delay - age,
            _ => calc_delay(new, old, default),
        },
        None => calc_delay(new, old, default),
    }
}

/// The least age of the paths that are enabled.
fn least_age(paths: &[Path]) -> Option<Time>
    ensures { result ≡ reduce min (ages (enabled paths.now)) }
{
    paths
        .iter()
        .filter(|path| path.on)
        .map(|path| path.age)
        .min()
}

/// The least delay of the paths of an age that are enabled.
fn least_delay(paths: &[Path], age: Time, new: Level, old: Level) -> Option<Time>
    ensures least { result ≡ reduce min (delays new old (of_age age (enabled paths.now))) }
    ensures within { (limit : ℕ) → All (λ path. IsWithin limit path.delay) paths.now → IfSome result (λ delay. delay ≤ limit) }
{
    paths
        .iter()
        .filter(|path| path.on)
        .filter(|path| path.age == age)
        .map(|path| calc_delay(new, old, &path.delay))
        .min()
}
