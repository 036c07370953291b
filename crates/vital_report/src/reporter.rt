ghost use Rattle.std.specs.Prelude.{◌≡◌, ◌≤◌, ◌++◌, ◌⊎◌, [], true, false, IfOk, OnOk, OnErr, IsErr};
ghost use Rattle.vital_base.specs.Faults.{Rose};
ghost use Rattle.vital_base.specs.Sinks.{appended, AppendsPrefix};
ghost use Rattle.vital_report.specs.Lines.{said, bytes_of};
ghost use Rattle.vital_report.specs.Reporters.{PassesOn, WritesFull};

use crate::event_start::EventStart;
use crate::held::Held;
use crate::line::Line;
use crate::said::write;
use std::alloc::{AllocError, Global};
use std::marker::Model;
use vital_base::{Sink, WriteFault};

/// Memory ran out.
pub type NoMemory = AllocError;

/// Writes lines to a sink, 4,096 bytes at once; what is fewer it holds until more come, or until it is flushed.
///
/// After a fault it has stopped: a prefix of what was to be written has been written, and each later call is a fault too and
/// writes nothing.
#[derive(Drop)]
pub struct Reporter {
    held: Held,
    /// How the line of the last event began.
    start: EventStart,
    stopped: bool,
}

impl Model for Reporter {
    ghost use Rattle.vital_report.specs.Reporters.{ReporterState};

    ghost Value = { ReporterState };

    ghost view = { λ r. record {
      held = r.held;
      stopped = r.stopped;
    } };
}

impl Reporter {
    /// A reporter that holds nothing and has not stopped. It takes all the memory that it will need.
    pub fn new(alloc: Global) -> Result<Reporter, NoMemory>
        ensures { IfOk result (λ reporter. reporter ≡ record { held = []; stopped = false }) }
    {
        let held = Held::new(alloc)?;
        Ok(Reporter {
            held,
            start: EventStart::new(0, 0),
            stopped: false,
        })
    }

    /// Writes the line after what it holds, or holds what is not written yet. It takes no memory.
    pub fn put<K: Sink>(&mut self, sink: &mut K, line: &Line<'_>) -> Result<(), WriteFault>
        ensures keeps_may_stick { K.may_stick sink.old → K.may_stick sink.new }
        ensures never_falls { K.faults sink.old ≤ K.faults sink.new }

        ensures ok_passes_on { OnOk result (PassesOn (K.told sink.old) self.old.held (bytes_of (said line.now))
            (K.told sink.new) self.new.held) }
        ensures ok_writes_full { OnOk result (WritesFull (K.told sink.old) self.old.held (bytes_of (said line.now))
            (K.told sink.new) self.new.held) }
        ensures ok_goes_on { OnOk result (self.new.stopped ≡ false) }
        ensures ok_leaves_count { OnOk result (K.faults sink.new ≡ K.faults sink.old) }

        ensures fault_stops { OnErr result (self.new.stopped ≡ true) }
        ensures fault_rose_or_had_stopped { OnErr result ((self.old.stopped ≡ true)
            ⊎ Rose (K.faults sink.old) (K.faults sink.new)) }
        ensures fault_appends_prefix { OnErr result (AppendsPrefix (K.told sink.old)
            (self.old.held ++ bytes_of (said line.now)) (K.told sink.new)) }

        ensures stopped_is_fault { self.old.stopped ≡ true → IsErr result }
        ensures stopped_writes_nothing { self.old.stopped ≡ true → sink.new ≡ sink.old }
        ensures stopped_stays { self.old.stopped ≡ true → self.new ≡ self.old }
    {
        if self.stopped {
            return Err(WriteFault);
        }
        let outcome = write(&mut self.held, sink, &mut self.start, line);
        self.stopped = outcome.is_err();
        outcome
    }

    /// Writes what it holds. It holds nothing after it, and takes no memory.
    pub fn flush<K: Sink>(&mut self, sink: &mut K) -> Result<(), WriteFault>
        ensures keeps_may_stick { K.may_stick sink.old → K.may_stick sink.new }
        ensures never_falls { K.faults sink.old ≤ K.faults sink.new }

        ensures ok_passes_on { OnOk result (PassesOn (K.told sink.old) self.old.held [] (K.told sink.new) self.new.held) }
        ensures ok_writes_all { OnOk result (K.told sink.new ≡ appended (K.told sink.old) self.old.held) }
        ensures ok_holds_nothing { OnOk result (self.new ≡ record { held = []; stopped = false }) }
        ensures ok_leaves_count { OnOk result (K.faults sink.new ≡ K.faults sink.old) }

        ensures fault_stops { OnErr result (self.new.stopped ≡ true) }
        ensures fault_rose_or_had_stopped { OnErr result ((self.old.stopped ≡ true)
            ⊎ Rose (K.faults sink.old) (K.faults sink.new)) }
        ensures fault_appends_prefix { OnErr result (AppendsPrefix (K.told sink.old) self.old.held (K.told sink.new)) }

        ensures stopped_is_fault { self.old.stopped ≡ true → IsErr result }
        ensures stopped_writes_nothing { self.old.stopped ≡ true → sink.new ≡ sink.old }
        ensures stopped_stays { self.old.stopped ≡ true → self.new ≡ self.old }
    {
        if self.stopped {
            return Err(WriteFault);
        }
        let flushed = self.held.flush(sink);
        self.stopped = flushed.is_err();
        flushed
    }
}
