//! The kinds of values that lines have in their fields.

ghost use Rattle.std.specs.Prelude.{◌≡◌, ◌++◌, ℕ, List, [], ◌∷◌, decimal};
ghost use Rattle.vital_logic.specs.Levels.{byte_of};
ghost use Rattle.vital_report.specs.Fields.{clause_word};
ghost use Rattle.vital_report.specs.Held.{Counts, Puts};

use crate::held::Held;
use itoa::Buffer;
use vital_base::{Clause, Sink, WriteFault};
use vital_logic::{Level, to_byte};

/// What a field has in it.
pub(crate) trait Value {
    // Its bytes in a line.
    ghost bytes: { Self → List ℕ };

    /// Puts its bytes.
    fn write<K: Sink>(&self, held: &mut Held, sink: &mut K) -> Result<(), WriteFault>
        ensures keeps_may_stick { K.may_stick sink.old → K.may_stick sink.new }
        ensures counts { Counts result (K.faults sink.old) (K.faults sink.new) }
        ensures puts { Puts result (K.told sink.old) held.old (bytes self.now) (K.told sink.new) held.new };
}

/// A text stands as it is.
impl<'a> Value for &'a [u8] {
    ghost bytes = { λ text. text.now };

    fn write<K: Sink>(&self, held: &mut Held, sink: &mut K) -> Result<(), WriteFault> {
        held.put(sink, self)
    }
}

/// A number stands in decimal.
impl Value for u64 {
    ghost bytes = { λ number. decimal number };

    fn write<K: Sink>(&self, held: &mut Held, sink: &mut K) -> Result<(), WriteFault> {
        let mut digits = Buffer::new();
        held.put(sink, digits.format(*self).as_bytes())
    }
}

/// A level of a signal stands as its letter.
impl Value for Level {
    ghost bytes = { λ level. byte_of level ∷ [] };

    fn write<K: Sink>(&self, held: &mut Held, sink: &mut K) -> Result<(), WriteFault> {
        held.put(sink, &[to_byte(*self)])
    }
}

/// A clause stands as L0.7.
impl Value for Clause {
    ghost bytes = { λ clause. clause_word clause };

    fn write<K: Sink>(&self, held: &mut Held, sink: &mut K) -> Result<(), WriteFault> {
        write_marked(held, sink, b"L", self.level)?;
        write_marked(held, sink, b".", self.number)
    }
}

/// Puts a mark, and at once after it a number.
fn write_marked<K: Sink>(
    held: &mut Held,
    sink: &mut K,
    mark: &[u8],
    number: u8,
) -> Result<(), WriteFault>
    ensures keeps_may_stick { K.may_stick sink.old → K.may_stick sink.new }
    ensures counts { Counts result (K.faults sink.old) (K.faults sink.new) }
    ensures puts { Puts result (K.told sink.old) held.old (mark.now ++ decimal number) (K.told sink.new) held.new }
{
    held.put(sink, mark)?;
    u64::from(number).write(held, sink)
}
