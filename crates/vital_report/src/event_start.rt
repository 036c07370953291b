//! How the lines of events begin, which is the same for all events of one time and delta.

ghost use Rattle.std.specs.Prelude.{◌≡◌, ◌≤◌, ◌+◌, ◌++◌, drop, length};
ghost use Rattle.vital_report.specs.Fields.{event_start};
ghost use Rattle.vital_report.specs.Held.{Counts, Puts};
ghost use Rattle.vital_report.specs.Lines.{bytes_of, event};

use crate::held::Held;
use itoa::write_digits;
use std::marker::Model;
use vital_base::{Name, Sink, Time, WriteFault};
use vital_logic::{Level, to_byte};

/// How many bytes the start of an event's line has at most.
const ROOM: usize = 48;

/// The bytes before the name in the lines of the events of a time and a delta. They are made once for all of them.
#[derive(Drop)]
pub(crate) struct EventStart {
    time: Time,
    delta: u64,
    /// The bytes stand at its end.
    buffer: [u8; ROOM],
    /// Where they begin.
    at: usize,
}

impl Model for EventStart {
    ghost use Rattle.std.specs.Prelude.{◌≡◌, ◌≤◌, ℕ, drop};
    ghost use Rattle.vital_report.specs.Fields.{event_start};

    ghost Value = { ℕ × ℕ };

    ghost view = { λ s. (s.time, s.delta) };

    ghost invariant = { λ s. (s.at ≤ 48) × (drop s.at s.buffer ≡ event_start s.time s.delta) };
}

impl EventStart {
    /// The start for this time and delta.
    pub(crate) fn new(time: Time, delta: u64) -> EventStart
        ensures { result ≡ (time, delta) }
    {
        let mut buffer = [b' '; ROOM];
        let delta_at = write_digits(delta, &mut buffer, ROOM - 1);
        let blank_at = put_before(&mut buffer, delta_at, b" ");
        let time_at = write_digits(time, &mut buffer, blank_at);
        let at = put_before(&mut buffer, time_at, b"event ");
        EventStart {
            time,
            delta,
            buffer,
            at,
        }
    }

    /// Puts the line of an event.
    pub(crate) fn write<K: Sink>(
        &mut self,
        held: &mut Held,
        sink: &mut K,
        time: Time,
        delta: u64,
        name: &Name,
        value: Level,
    ) -> Result<(), WriteFault>
        ensures keeps_may_stick { K.may_stick sink.old → K.may_stick sink.new }
        ensures counts { Counts result (K.faults sink.old) (K.faults sink.new) }
        ensures puts { Puts result (K.told sink.old) held.old (bytes_of (event time delta name.now value)) (K.told sink.new) held.new }
    {
        self.turn_to(time, delta);
        held.put(sink, self.bytes())?;
        held.put(sink, name.as_slice())?;
        held.put(sink, &[b' ', to_byte(value), b'\n'])
    }

    /// Is the start for this time and delta from now on.
    #[inline]
    fn turn_to(&mut self, time: Time, delta: u64)
        ensures { self.new ≡ (time, delta) }
    {
        if self.time != time || self.delta != delta {
            *self = EventStart::new(time, delta);
        }
    }

    /// The bytes before the name.
    fn bytes(&self) -> &[u8]
        ensures { result.now ≡ event_start self.now.0 self.now.1 }
    {
        &self.buffer[self.at..]
    }
}

/// Puts a text right before `end`, and answers where it begins.
fn put_before(buffer: &mut [u8], end: usize, text: &[u8]) -> usize
    requires has_room { length text.now ≤ end }
    requires within { end ≤ length buffer.old }
    ensures start { result + length text.now ≡ end }
    ensures written { drop result buffer.new ≡ text.now ++ drop end buffer.old }
{
    let at = end - text.len();
    buffer[at..end].copy_from_slice(text);
    at
}
