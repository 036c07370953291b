//! A sink that notes where its writes begin.

ghost use Rattle.std.specs.Prelude.{◌≡◌};

use vital_base::{Failed, MemSink, Sink};

/// A sink over memory that notes for each write how many bytes there were before it, in order, as long as there is memory for it.
#[derive(Drop)]
pub struct NotedSink {
    pub sink: MemSink,
    pub starts: Vec<usize>,
}

impl NotedSink {
    fn note(&mut self)
        ensures { self.new.sink ≡ self.old.sink }
    {
        let _ = self.starts.push(self.sink.bytes().len());
    }
}

impl Sink for NotedSink {
    ghost use Rattle.std.specs.Prelude.{◌≡◌};
    ghost use Rattle.vital_base.specs.Sinks.{got};

    ghost told = { λ noted. got noted.sink.bytes };

    ghost faults = { λ noted. noted.sink.faults };

    ghost may_stick = { λ noted. noted.sink.piece ≡ 0 };

    fn write(&mut self, piece: &[u8]) -> Result<usize, Failed> {
        self.note();
        self.sink.write(piece)
    }

    fn note_stuck(&mut self) {
        self.sink.note_stuck();
    }
}
