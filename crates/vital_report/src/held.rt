//! The bytes that a reporter holds and has still to write.

ghost use Rattle.std.specs.Prelude.{◌≡◌, ◌<◌, ◌+◌, ◌++◌, [], length, IfOk, OnOk, OnErr};
ghost use Rattle.vital_base.specs.Sinks.{appended, AppendsPrefix};
ghost use Rattle.vital_report.specs.Held.{Counts, Puts};

use std::alloc::{AllocError, Global};
use std::marker::Model;
use vital_base::{Sink, WriteFault, write_all};

/// How many bytes are written at once.
const ROOM: usize = 4_096;

/// The bytes that are held, always fewer than are written at once. A contract sees them as a list.
#[derive(Drop)]
pub(crate) struct Held {
    /// The bytes, and behind them room for more.
    buffer: Vec<u8>,
    /// How many there are.
    count: usize,
}

impl Model for Held {
    ghost use Rattle.std.specs.Prelude.{◌≡◌, ◌<◌, ℕ, List, length, take};

    ghost Value = { List ℕ };

    ghost view = { λ h. take h.count h.buffer.items };

    ghost invariant = { λ h. (length h.buffer.items ≡ 4096) × (h.count < 4096) };
}

impl Held {
    /// Nothing is held. It takes all the memory that it will need.
    pub(crate) fn new(alloc: Global) -> Result<Held, AllocError>
        ensures { IfOk result (λ held. held ≡ []) }
    {
        let buffer = vec![in alloc; 0u8; ROOM]?;
        Ok(Held { buffer, count: 0 })
    }

    /// Holds the text behind what is held; where that is full, writes it.
    #[inline]
    pub(crate) fn put<K: Sink>(&mut self, sink: &mut K, text: &[u8]) -> Result<(), WriteFault>
        ensures keeps_may_stick { K.may_stick sink.old → K.may_stick sink.new }
        ensures counts { Counts result (K.faults sink.old) (K.faults sink.new) }
        ensures puts { Puts result (K.told sink.old) self.old text.now (K.told sink.new) self.new }
    {
        if text.len() < self.room() {
            self.hold(text);
            return Ok(());
        }
        self.put_long(sink, text)
    }

    /// Puts a text for which there is no room.
    #[inline(never)]
    fn put_long<K: Sink>(&mut self, sink: &mut K, text: &[u8]) -> Result<(), WriteFault>
        ensures keeps_may_stick { K.may_stick sink.old → K.may_stick sink.new }
        ensures counts { Counts result (K.faults sink.old) (K.faults sink.new) }
        ensures puts { Puts result (K.told sink.old) self.old text.now (K.told sink.new) self.new }
    {
        let mut rest = text;
        while rest.len() >= self.room() {
            let (first, later) = rest.split_at(self.room());
            self.fill(sink, first)?;
            rest = later;
        }
        self.hold(rest);
        Ok(())
    }

    /// How many bytes more are held when it is full.
    #[inline]
    fn room(&self) -> usize
        ensures complements { result + length self.now ≡ 4096 }
        ensures some { 0 < result }
    {
        ROOM - self.count
    }

    /// Holds a text for which there is room.
    #[inline]
    fn hold(&mut self, text: &[u8])
        requires { length self.old + length text.now < 4096 }
        ensures { self.new ≡ self.old ++ text.now }
    {
        let count = self.count + text.len();
        self.buffer[self.count..count].copy_from_slice(text);
        self.count = count;
    }

    /// Writes what is held and a text with which it is full.
    fn fill<K: Sink>(&mut self, sink: &mut K, text: &[u8]) -> Result<(), WriteFault>
        requires { length self.old + length text.now ≡ 4096 }
        ensures keeps_may_stick { K.may_stick sink.old → K.may_stick sink.new }
        ensures counts { Counts result (K.faults sink.old) (K.faults sink.new) }
        ensures ok_writes { OnOk result (K.told sink.new ≡ appended (K.told sink.old) (self.old ++ text.now)) }
        ensures ok_holds_nothing { OnOk result (self.new ≡ []) }
        ensures fault_appends_prefix { OnErr result (AppendsPrefix (K.told sink.old) (self.old ++ text.now) (K.told sink.new)) }
    {
        self.buffer[self.count..].copy_from_slice(text);
        write_all(sink, &self.buffer)?;
        self.count = 0;
        Ok(())
    }

    /// Writes what is held.
    pub(crate) fn flush<K: Sink>(&mut self, sink: &mut K) -> Result<(), WriteFault>
        ensures keeps_may_stick { K.may_stick sink.old → K.may_stick sink.new }
        ensures counts { Counts result (K.faults sink.old) (K.faults sink.new) }
        ensures ok_writes { OnOk result (K.told sink.new ≡ appended (K.told sink.old) self.old) }
        ensures ok_holds_nothing { OnOk result (self.new ≡ []) }
        ensures fault_appends_prefix { OnErr result (AppendsPrefix (K.told sink.old) self.old (K.told sink.new)) }
    {
        write_all(sink, &self.buffer[..self.count])?;
        self.count = 0;
        Ok(())
    }
}
