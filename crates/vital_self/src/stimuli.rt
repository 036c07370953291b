//! The stimuli.

ghost use Rattle.std.specs.Prelude.{◌≡◌, ◌*◌, ◌≤◌, ◌++◌, IfOk, OnOk};
ghost use Rattle.vital_self.specs.Stimuli.{stimulus_of, stimuli_start, stimuli};

use crate::draws::Draws;
use crate::text::push_numbered;
use std::alloc::{AllocError, Global};

/// How many stimuli there are behind 0 ns.
const STIMULI: u32 = 20;

/// Each port is 0 at first.
fn stimuli_start() -> &'static [u8]
    ensures { result.now ≡ stimuli_start }
{
    b"0 ns i0 0
0 ns i1 0
0 ns i2 0
0 ns i3 0
0 ns i4 0
0 ns i5 0
0 ns i6 0
0 ns i7 0
"
}

/// The text of the file `s`, whose stimuli are drawn behind a netlist of so many cells.
#[tactic(auto, using(crate::proofs::Growing::texts))]
pub(crate) fn stimuli(alloc: Global, draws: &mut Draws, cells: u32) -> Result<Vec<u8>, AllocError>
    requires cells { cells ≤ 10_000 }
    requires made { draws.old.made ≡ 2 * cells }
    ensures { IfOk result (λ text. text.items ≡ stimuli draws.old.seed cells) }
{
    let mut text = Vec::from_slice(alloc, stimuli_start())?;
    for k in 0..STIMULI {
        let port = draws.below(8);
        let level = draws.below(2);
        push_stimulus(&mut text, k + 1, port, level)?;
    }
    Ok(text)
}

/// Puts the line of a stimulus at the end of a text.
fn push_stimulus(text: &mut Vec<u8>, time: u32, port: u32, level: u32) -> Result<(), AllocError>
    ensures { OnOk result (text.new.items ≡ text.old.items ++ stimulus_of time port level) }
{
    push_numbered(text, b"", time)?;
    push_numbered(text, b" ns i", port)?;
    push_numbered(text, b" ", level)?;
    text.extend_from_slice(b"\n")
}
