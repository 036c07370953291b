//! Spellings of ports that were read before.

ghost use Rattle.std.specs.Prelude.{List, Option, IfSome};
ghost use Rattle.vital_base.specs.declared.ports.PortBit.{PortBit};
ghost use Rattle.vital_stim.specs.Spellings.{Spells, Remembers};

/// A spelling of a port.
#[derive(Clone, Copy)]
pub struct Spelling<'a> {
    bytes: &'a [u8],
    /// The number of the port.
    port: u32,
}

/// Spellings that were read before, so that a port that is read again is not tested, folded and looked up again.
/// A spelling stands at the place that its bytes give, where it replaces the one before.
#[derive(Clone, Copy)]
pub struct Spellings<'a> {
    slots: [Option<Spelling<'a>>; 256],
}

impl<'a> Spellings<'a> {
    /// No spelling yet.
    pub fn new() -> Self
        ensures { (given : Option (List PortBit)) (ports : List PortBit) → Remembers given ports result }
    {
        Spellings { slots: [None; 256] }
    }

    /// The number of the port that is spelled so, if this spelling is remembered.
    pub fn port(&self, bytes: &[u8]) -> Option<u32>
        ensures { (given : Option (List PortBit)) (ports : List PortBit) → Remembers given ports self.now → IfSome result (Spells given ports bytes.now) }
    {
        let spelling = self.slots[usize::from(slot_of(bytes))]?;
        if spelling.bytes == bytes {
            Some(spelling.port)
        } else {
            None
        }
    }

    /// Remembers how this port is spelled.
    pub fn put(&mut self, bytes: &'a [u8], port: u32)
        ensures { (given : Option (List PortBit)) (ports : List PortBit) → Remembers given ports self.old → Spells given ports bytes.now port → Remembers given ports self.new }
    {
        self.slots[usize::from(slot_of(bytes))] = Some(Spelling { bytes, port });
    }
}

/// The slot of a spelling: any function of the bytes will do that sends few of a file's spellings to one slot.
fn slot_of(bytes: &[u8]) -> u8 {
    let mut slot = 0u8;
    for byte in bytes {
        slot = slot.wrapping_mul(33).wrapping_add(*byte);
    }
    slot
}
