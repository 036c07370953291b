ghost use Rattle.std.specs.Prelude.{◌≡◌, [], true, IsErr, OnOk};
ghost use Rattle.vital_base.specs.Sinks.{appended};
ghost use Rattle.vital_report.specs.Lines.{said, bytes_of};
ghost use Rattle.vital_report.specs.Reporters.{Prints, WritesFull};

use crate::line::Line;
use crate::reporter::Reporter;
use std::marker::Model;
use vital_base::{Sink, WriteFault};

/// Where a run prints its lines: a reporter and the sink that it writes to, as one value.
#[derive(Drop)]
pub struct Printer<'a, K: Sink> {
    reporter: Reporter,
    sink: &'a mut K,
}

impl<'a, K: Sink> Model for Printer<'a, K> {
    ghost use Rattle.vital_report.specs.Reporters.{PrinterState};

    ghost Value = { PrinterState };

    ghost view = { λ p. record {
      told = K.told p.sink.now;
      held = p.reporter.held;
      stopped = p.reporter.stopped;
      faults = K.faults p.sink.now;
      lender = p.sink.ghost_name;
    } };
}

impl<'a, K: Sink> Printer<'a, K> {
    /// The printer of a reporter and a sink.
    pub fn new(reporter: Reporter, sink: &'a mut K) -> Printer<'a, K>
        ensures { result ≡ record {
          told = K.told sink.old;
          held = reporter.held;
          stopped = reporter.stopped;
          faults = K.faults sink.old;
          lender = sink.entry.ghost_name;
        } }
    {
        Printer { reporter, sink }
    }

    /// Prints the line. It takes no memory.
    pub fn print(&mut self, line: &Line<'_>) -> Result<(), WriteFault>
        ensures prints { Prints result (bytes_of (said line.now)) self.old self.new }
        ensures ok_writes_full { OnOk result (WritesFull self.old.told self.old.held (bytes_of (said line.now))
            self.new.told self.new.held) }
        ensures stopped_is_fault { self.old.stopped ≡ true → IsErr result }
        ensures stopped_prints_nothing { self.old.stopped ≡ true → self.new ≡ self.old }
    {
        self.reporter.put(self.sink, line)
    }

    /// Writes what is held, so that nothing is. It takes no memory.
    pub fn flush(&mut self) -> Result<(), WriteFault>
        ensures prints { Prints result [] self.old self.new }
        ensures ok_writes_all { OnOk result (self.new.told ≡ appended self.old.told self.old.held) }
        ensures ok_holds_nothing { OnOk result (self.new.held ≡ []) }
        ensures stopped_is_fault { self.old.stopped ≡ true → IsErr result }
        ensures stopped_prints_nothing { self.old.stopped ≡ true → self.new ≡ self.old }
    {
        self.reporter.flush(self.sink)
    }

    /// Gives the sink back. What is still held is not written.
    pub fn into_sink(self) -> &'a mut K
        ensures same_sink { result.ghost_name ≡ self.entry.lender }
        ensures told { K.told result.now ≡ self.entry.told }
        ensures faults { K.faults result.now ≡ self.entry.faults }
    {
        let Printer { reporter: _, sink } = self;
        sink
    }
}
