ghost use Rattle.std.specs.Prelude.{◌≡◌, not};
ghost use Rattle.vital_agenda.specs.Driver.{same_level};
ghost use Rattle.vital_signals.specs.Events.{quiet_signal, with_value};

use vital_base::Time;
use vital_logic::{Level, to_byte};

/// A signal: its value, the value before its last event (its value where it had none), and the time of that event in femtoseconds
/// (IEEE 1076-1993, 12.6.2 and 14.1).
#[derive(Clone, Copy, PartialEq, Eq)]
pub struct Signal {
    pub value: Level,
    pub last_value: Level,
    pub last_event: Option<Time>,
}

impl Signal {
    /// A signal before its first event.
    pub(crate) fn quiet(value: Level) -> Signal
        ensures { result ≡ quiet_signal value }
    {
        Signal {
            value,
            last_value: value,
            last_event: None,
        }
    }

    /// Gives the signal a value at a time. Is it an event?
    pub(crate) fn give(&mut self, value: Level, time: Time) -> bool
        ensures after { self.new ≡ with_value time (self.old, value) }
        ensures event { result ≡ not (same_level self.old.value value) }
    {
        if to_byte(self.value) == to_byte(value) {
            return false;
        }
        self.last_value = self.value;
        self.value = value;
        self.last_event = Some(time);
        true
    }
}
