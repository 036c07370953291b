//! The fields of a line. A line is written without a list of its fields: each kind of line has a type of its own for them,
//! so that nothing is asked of a field at run time.

ghost use Rattle.std.specs.Prelude.{◌≡◌, ◌++◌, ℕ, List, [], ◌∷◌};
ghost use Rattle.vital_report.specs.Fields.{fields_text};
ghost use Rattle.vital_report.specs.Held.{Counts, Puts};
ghost use Rattle.vital_report.specs.Lines.{line_of};

use crate::held::Held;
use crate::value::Value;
use vital_base::{Sink, WriteFault};

/// One field of a line, or several, one after the other.
pub(crate) trait Fields {
    // Each field, as its bytes.
    ghost listed: { Self → List (List ℕ) };

    /// Puts each field after a blank.
    fn write<K: Sink>(&self, held: &mut Held, sink: &mut K) -> Result<(), WriteFault>
        ensures keeps_may_stick { K.may_stick sink.old → K.may_stick sink.new }
        ensures counts { Counts result (K.faults sink.old) (K.faults sink.new) }
        ensures puts { Puts result (K.told sink.old) held.old (fields_text (listed self.now)) (K.told sink.new) held.new };
}

/// A field with this value.
#[derive(Clone, Copy)]
pub(crate) struct Field<V: Value>(pub(crate) V);

impl<V: Value> Fields for Field<V> {
    ghost listed = { λ field. V.bytes field.0 ∷ [] };

    fn write<K: Sink>(&self, held: &mut Held, sink: &mut K) -> Result<(), WriteFault> {
        held.put(sink, b" ")?;
        self.0.write(held, sink)
    }
}

/// No field.
impl Fields for () {
    ghost listed = { λ nothing. [] };

    fn write<K: Sink>(&self, held: &mut Held, sink: &mut K) -> Result<(), WriteFault> {
        held.put(sink, b"")
    }
}

/// The fields of the first, and then those of the second.
impl<A: Fields, B: Fields> Fields for (A, B) {
    ghost listed = { λ pair. A.listed pair.0 ++ B.listed pair.1 };

    fn write<K: Sink>(&self, held: &mut Held, sink: &mut K) -> Result<(), WriteFault> {
        self.0.write(held, sink)?;
        self.1.write(held, sink)
    }
}

/// Puts the line that begins with this text and has these fields.
pub(crate) fn write_line<K: Sink, F: Fields>(
    held: &mut Held,
    sink: &mut K,
    start: &[u8],
    fields: &F,
) -> Result<(), WriteFault>
    ensures keeps_may_stick { K.may_stick sink.old → K.may_stick sink.new }
    ensures counts { Counts result (K.faults sink.old) (K.faults sink.new) }
    ensures puts { Puts result (K.told sink.old) held.old (line_of start.now (F.listed fields.now)) (K.told sink.new) held.new }
{
    held.put(sink, start)?;
    fields.write(held, sink)?;
    held.put(sink, b"\n")
}
