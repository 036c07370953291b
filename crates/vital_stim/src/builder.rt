//! Stimuli in the making.

ghost use Rattle.std.specs.Prelude.{◌≡◌, ◌+◌, ◌<◌, ◌≤◌, ◌^◌, List, [], ◌∷◌, ◌++◌, length, Option, OnOk, IfOk, IfSome};
ghost use Rattle.vital_base.specs.declared.ports.PortBit.{PortBit as PortBit'};
ghost use Rattle.vital_identifiers.specs.Identifiers.{folded};
ghost use Rattle.vital_stim.specs.Stimuli.{Stimulus, lent, with_ports};
ghost use Rattle.vital_stim.specs.Entry.{stimulus, stimulus_told};
ghost use Rattle.vital_stim.specs.KnownPorts.{as_told};
ghost use Rattle.vital_stim.specs.Builder.{Holds, port_count};

use crate::entry::Entry;
use crate::fault::StimWhy;
use crate::known_ports::KnownPorts;
use crate::port_form::is_port;
use crate::spellings::Spellings;
use crate::stimuli::{StimLine, Stimuli};
use std::alloc::{AllocError, Global};
use vital_base::{List, Ports};

/// Stimuli that entries are put to, one after another.
#[derive(Drop)]
pub struct StimuliBuilder<'a> {
    ports: KnownPorts<'a>,
    lines: Vec<StimLine>,
    /// Room for the name of the entry that is put, which is used again and again.
    folded: Vec<u8>,
    /// How ports were spelled, so that most entries need no search among the ports.
    spellings: Spellings<'a>,
}

impl<'a> StimuliBuilder<'a> {
    /// No stimuli yet, of these ports if they are given.
    pub fn new(alloc: Global, ports: Option<&'a Ports>) -> Result<Self, AllocError>
        requires { IfSome ports (λ given. length given.now < 2 ^ 32) }
        ensures held { IfOk result (λ builder. Holds (lent ports.entry) builder []) }
        ensures count { IfOk result (λ builder. port_count builder ≡ 0) }
    {
        Ok(StimuliBuilder {
            ports: KnownPorts::new(alloc, ports)?,
            lines: Vec::new(alloc),
            folded: Vec::new(alloc),
            spellings: Spellings::new(),
        })
    }

    /// Puts what an entry says at the end, or tells the test that its port fails.
    pub fn push(
        &mut self,
        alloc: Global,
        entry: &Entry<'a>,
    ) -> Result<Result<(), StimWhy>, AllocError>
        requires { port_count self.old < 2 ^ 32 }
        ensures told { IfOk result (λ put. (given : Option (List PortBit')) (stimuli : List Stimulus) → Holds given self.old stimuli
            → as_told (stimulus entry.now) put ≡ stimulus_told given entry.now) }
        ensures held { IfOk result (λ put. OnOk put ((given : Option (List PortBit')) (stimuli : List Stimulus) → Holds given self.old stimuli
            → Holds given self.new (stimuli ++ stimulus entry.now ∷ []))) }
        ensures count { OnOk result (port_count self.new ≤ port_count self.old + 1) }
    {
        if let Some(port) = self.spellings.port(entry.port) {
            self.lines.push(line_of(entry, port))?;
            return Ok(Ok(()));
        }
        if !is_port(entry.port) {
            return Ok(Err(StimWhy::Line));
        }
        fold_into(&mut self.folded, entry.port)?;
        match self.ports.number(alloc, &self.folded)? {
            Ok(port) => {
                self.spellings.put(entry.port, port);
                self.lines.push(line_of(entry, port))?;
                Ok(Ok(()))
            }
            Err(why) => Ok(Err(why)),
        }
    }

    /// The stimuli that were put.
    pub fn build(self, alloc: Global) -> Result<Stimuli, AllocError>
        ensures { IfOk result (λ built. (given : Option (List PortBit')) (stimuli : List Stimulus) → Holds given self.entry stimuli → built ≡ with_ports given stimuli) }
    {
        let StimuliBuilder {
            ports,
            lines,
            folded: _,
            spellings: _,
        } = self;
        Ok(Stimuli {
            ports: ports.into_ports(alloc)?,
            lines: List::new(lines),
        })
    }
}

/// What an entry says of the port with this number.
fn line_of(entry: &Entry<'_>, port: u32) -> StimLine
    ensures { result ≡ record { time = entry.now.time; port = port; value = entry.now.value } }
{
    StimLine {
        time: entry.time,
        port,
        value: entry.value,
    }
}

/// Writes the folded name over what the buffer held.
fn fold_into(buffer: &mut Vec<u8>, name: &[u8]) -> Result<(), AllocError>
    ensures { OnOk result (buffer.new.items ≡ folded name.now) }
{
    buffer.clear();
    for byte in name {
        buffer.push(byte.to_ascii_lowercase())?;
    }
    Ok(())
}
