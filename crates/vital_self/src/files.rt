//! The three files together.

ghost use Rattle.std.specs.Prelude.{◌≡◌, ◌≤◌, length, IfOk};
ghost use Rattle.vital_self.specs.SelfTexts.{self_texts};

use crate::draws::Draws;
use crate::library::library;
use crate::netlist::netlist;
use crate::stimuli::stimuli;
use std::alloc::{AllocError, Global};
use vital_base::Bytes;

/// The files of a run that a seed draws.
#[derive(Drop)]
pub struct Texts {
    /// The VHDL of the library, whose file is named `and2.vhd`: a cell AND2.
    pub library: Bytes,
    /// The VHDL of the netlist, whose file is named `g.vhd`: a unit g with in ports i0 to i7 and an out port o.
    pub netlist: Bytes,
    /// The stimuli, whose file is named `s`.
    pub stimuli: Bytes,
}

/// The texts for a seed and so many cells, or want of memory. Each is short enough to be read as a file.
#[tactic(auto, unfolding(crate::specs::SelfTexts::self_texts))]
pub fn texts_of(alloc: Global, seed: u64, cells: u32) -> Result<Texts, AllocError>
    requires { (1 ≤ cells) × (cells ≤ 10_000) }
    ensures texts { IfOk result (λ texts. texts ≡ self_texts seed cells) }
    ensures short_library { IfOk result (λ texts. length texts.library ≤ 16_777_216) }
    ensures short_netlist { IfOk result (λ texts. length texts.netlist ≤ 16_777_216) }
    ensures short_stimuli { IfOk result (λ texts. length texts.stimuli ≤ 16_777_216) }
{
    let mut draws = Draws::new(seed);
    let netlist = netlist(alloc, &mut draws, cells)?;
    let stimuli = stimuli(alloc, &mut draws, cells)?;
    Ok(Texts {
        library: Bytes::new(Vec::from_slice(alloc, library())?),
        netlist: Bytes::new(netlist),
        stimuli: Bytes::new(stimuli),
    })
}
