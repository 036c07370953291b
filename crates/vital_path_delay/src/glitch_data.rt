ghost use Rattle.std.specs.Prelude.{◌≡◌};
ghost use Rattle.vital_path_delay.specs.Kept.{start};
ghost use Rattle.vital_path_delay.specs.Scheduling.{comes_first, has_glitch_passed, is_awaited, is_settled, same_level};

use vital_base::Time;
use vital_logic::{Level, to_byte};

/// What a path delay keeps from one call to the next (IEEE 1076.4, VitalGlitchDataType). Times are femtoseconds from the start of the
/// run on.
#[derive(Clone, Copy, Debug, PartialEq, Eq)]
pub struct GlitchData {
    /// When the output has the value that was assigned last.
    pub sched_time: Time,
    /// When the first change that is pending comes: from then on the output may be unknown.
    pub glitch_time: Time,
    /// The value that was assigned last.
    pub sched_value: Level,
    /// The value of the last call.
    pub last_value: Level,
}

impl GlitchData {
    /// What there is before the first call: both times 0, and both values U.
    pub fn new() -> GlitchData
        ensures { result ≡ start }
    {
        GlitchData {
            sched_time: 0,
            glitch_time: 0,
            sched_value: Level::U,
            last_value: Level::U,
        }
    }

    /// Has the output the value that was assigned last?
    pub(crate) fn is_settled(&self, now: Time) -> bool
        ensures { result ≡ is_settled now self.now }
    {
        self.sched_time <= now
    }

    /// Comes a change at this time neither after the first that is pending nor after the last?
    pub(crate) fn comes_first(&self, time: Time) -> bool
        ensures { result ≡ comes_first time self.now }
    {
        time <= self.glitch_time && time <= self.sched_time
    }

    /// Has the time come from which on the output may be unknown?
    pub(crate) fn has_glitch_passed(&self, now: Time) -> bool
        ensures { result ≡ has_glitch_passed now self.now }
    {
        self.glitch_time <= now
    }

    /// Is this the value that was assigned last?
    pub(crate) fn is_last(&self, value: Level) -> bool
        ensures { result ≡ same_level value self.now.sched_value }
    {
        to_byte(value) == to_byte(self.sched_value)
    }

    /// Is this the value that was assigned last, with no other change pending before it?
    pub(crate) fn is_awaited(&self, value: Level) -> bool
        ensures { result ≡ is_awaited value self.now }
    {
        self.is_last(value) && self.sched_time == self.glitch_time
    }
}
