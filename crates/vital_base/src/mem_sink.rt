ghost use Rattle.std.specs.Prelude.{◌≡◌, ◌<◌, ◌++◌, [], length, take, min, Contains, IfOk, OnErr, IsErr};
ghost use Rattle.vital_base.specs.Faults.{counted};

use crate::failed::{Failed, is_listed};
use crate::list::List;
use crate::sink::Sink;
use std::alloc::Global;
use std::marker::Model;

/// A sink over memory, which tells its bytes. Its writes fail where it is told to.
#[derive(Drop)]
pub struct MemSink {
    bytes: Vec<u8>,
    piece: u32,
    fails: List<u32>,
    calls: u64,
    faults: u64,
}

impl Model for MemSink {
    ghost use Rattle.vital_base.specs.MemSinks.{MemSinkState};

    ghost Value = { MemSinkState };

    ghost view = { λ s. record {
      bytes = s.bytes.items;
      piece = s.piece;
      fails = s.fails;
      calls = s.calls;
      faults = s.faults;
    } };
}

impl MemSink {
    /// An empty sink whose writes take at most `piece` bytes each, and fail at the calls with the numbers `fails`, counted
    /// from 1. It may stick exactly where `piece` is 0. It takes no memory.
    pub fn new(alloc: Global, piece: u32, fails: List<u32>) -> MemSink
        ensures { result ≡ record { bytes = []; piece = piece; fails = fails; calls = 0; faults = 0 } }
    {
        MemSink {
            bytes: Vec::new(alloc),
            piece,
            fails,
            calls: 0,
            faults: 0,
        }
    }

    /// The bytes that it got.
    pub fn bytes(&self) -> &[u8]
        ensures { result.now ≡ self.now.bytes }
    {
        self.bytes.as_slice()
    }
}

impl Sink for MemSink {
    ghost use Rattle.std.specs.Prelude.{◌≡◌};
    ghost use Rattle.vital_base.specs.Sinks.{got};

    ghost told = { λ sink. got sink.bytes };

    ghost faults = { λ sink. sink.faults };

    ghost may_stick = { λ sink. sink.piece ≡ 0 };

    /// Want of memory for the bytes is a fault too.
    fn write(&mut self, piece: &[u8]) -> Result<usize, Failed>
        requires { 0 < length piece.now }
        ensures fails_where_listed { Contains self.old.fails (counted self.old.calls) → IsErr result }
        ensures ok_takes { IfOk result (λ count. count ≡ min (length piece.now) self.old.piece) }
        ensures ok_appends { IfOk result (λ count. self.new ≡ record self.old {
          bytes = self.old.bytes ++ take count piece.now;
          calls = counted self.old.calls;
        }) }
        ensures err_counts { OnErr result (self.new ≡ record self.old {
          calls = counted self.old.calls;
          faults = counted self.old.faults;
        }) }
    {
        self.calls = self.calls.saturating_add(1);
        if is_listed(self.fails.as_slice(), self.calls) {
            return Err(Failed::count(&mut self.faults));
        }
        let taken = piece.len().min(self.piece as usize);
        if self.bytes.extend_from_slice(&piece[..taken]).is_err() {
            return Err(Failed::count(&mut self.faults));
        }
        Ok(taken)
    }

    fn note_stuck(&mut self)
        ensures { self.new ≡ record self.old { faults = counted self.old.faults } }
    {
        let _ = Failed::count(&mut self.faults);
    }
}
