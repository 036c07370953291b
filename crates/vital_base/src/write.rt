ghost use Rattle.std.specs.Prelude.{◌≡◌, ◌≤◌, [], OnOk, OnErr, IsOk};
ghost use Rattle.vital_base.specs.Faults.{Rose};
ghost use Rattle.vital_base.specs.Sinks.{appended, AppendsPrefix};

use crate::failed::Failed;
use crate::sink::Sink;
use thiserror::Error;

/// A sink failed, and its count of faults rose. A prefix of what was to be written has been written.
#[derive(Clone, Copy, Debug, PartialEq, Eq, Error)]
#[error("writing failed")]
pub struct WriteFault;

impl From<Failed> for WriteFault {
    fn from(_failed: Failed) -> WriteFault {
        WriteFault
    }
}

/// Appends the whole piece to what the sink got, or a prefix of it with a fault. A write that takes none of the rest is
/// noted as stuck, and is a fault. It takes no memory, and an empty piece needs no write.
pub fn write_all<K: Sink>(sink: &mut K, piece: &[u8]) -> Result<(), WriteFault>
    ensures keeps_may_stick { K.may_stick sink.old → K.may_stick sink.new }
    ensures never_falls { K.faults sink.old ≤ K.faults sink.new }

    ensures ok_leaves_count { OnOk result (K.faults sink.new ≡ K.faults sink.old) }
    ensures ok_appends { OnOk result (K.told sink.new ≡ appended (K.told sink.old) piece.now) }
    ensures ok_empty { piece.now ≡ [] → IsOk result }

    ensures fault_rose { OnErr result (Rose (K.faults sink.old) (K.faults sink.new)) }
    ensures fault_appends_prefix { OnErr result (AppendsPrefix (K.told sink.old) piece.now (K.told sink.new)) }
{
    let mut written = 0;
    while written < piece.len() {
        let taken = sink.write(&piece[written..])?;
        if taken == 0 {
            sink.note_stuck();
            return Err(WriteFault);
        }
        written += taken;
    }
    Ok(())
}
