ghost use Rattle.std.specs.Prelude.{◌≡◌};

use crate::failed::Failed;
use crate::sink::Sink;
use std::marker::Model;

/// Standard output, of which nothing is told. It keeps no buffer: a write goes out at once. An error of writing, an
/// interrupted write among them, is a fault.
#[derive(Drop)]
pub struct StdSink<P: Print> {
    output: P,
    faults: u64,
}

impl<P: Print> Model for StdSink<P> {
    ghost use Rattle.std.specs.Prelude.{ℕ};

    ghost Value = { ℕ };

    ghost view = { λ s. s.faults };
}

impl<P: Print> StdSink<P> {
    /// The output that this runtime prints to. A contract sees it as its count of faults, which is 0.
    pub fn new(output: P) -> StdSink<P>
        ensures { result ≡ 0 }
    {
        StdSink { output, faults: 0 }
    }
}

impl<P: Print> Sink for StdSink<P> {
    ghost use Rattle.std.specs.Prelude.{⊤};
    ghost use Rattle.vital_base.specs.Sinks.{untold};

    ghost told = { λ _. untold };

    ghost faults = { λ sink. sink };

    ghost may_stick = { λ _. ⊤ };

    fn write(&mut self, piece: &[u8]) -> Result<usize, Failed> {
        match self.output.write_some(piece) {
            Ok(count) => Ok(count),
            Err(_) => Err(Failed::count(&mut self.faults)),
        }
    }

    fn note_stuck(&mut self) {
        let _ = Failed::count(&mut self.faults);
    }
}
