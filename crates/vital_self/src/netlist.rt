//! The netlist: instances of AND2, each of which may drive any later one.

ghost use Rattle.std.specs.Prelude.{◌≡◌, ◌*◌, ◌<◌, ◌≤◌, ◌++◌, codes, IfOk, OnOk};
ghost use Rattle.vital_self.specs.Lines.{texts_below};
ghost use Rattle.vital_self.specs.Netlist.{source, driven, instance_of, instance, signal, netlist_start, netlist};

use crate::draws::Draws;
use crate::text::push_numbered;
use std::alloc::{AllocError, Global};

/// How many in ports there are.
const PORTS: u32 = 8;

/// The entity, and where its architecture begins.
fn netlist_start() -> &'static [u8]
    ensures { result.now ≡ netlist_start }
{
    b"entity g is
  port (
    i0 : in STD_LOGIC;
    i1 : in STD_LOGIC;
    i2 : in STD_LOGIC;
    i3 : in STD_LOGIC;
    i4 : in STD_LOGIC;
    i5 : in STD_LOGIC;
    i6 : in STD_LOGIC;
    i7 : in STD_LOGIC;
    o : out STD_LOGIC);
end g;
architecture s of g is
"
}

/// The text of the file `g.vhd` with so many instances, whose inputs are drawn.
pub(crate) fn netlist(alloc: Global, draws: &mut Draws, cells: u32) -> Result<Vec<u8>, AllocError>
    requires cells { (1 ≤ cells) × (cells ≤ 10_000) }
    requires none_made { draws.old.made ≡ 0 }
    ensures text { IfOk result (λ text. text.items ≡ netlist draws.old.seed cells) }
    ensures seed { draws.new.seed ≡ draws.old.seed }
    ensures made { OnOk result (draws.new.made ≡ 2 * cells) }
{
    let mut text = Vec::from_slice(alloc, netlist_start())?;
    push_signals(&mut text, cells - 1)?;
    text.extend_from_slice(b"begin\n")?;
    push_instances(&mut text, draws, cells)?;
    text.extend_from_slice(b"end s;\n")?;
    Ok(text)
}

/// Puts the declarations of so many signals at the end of a text.
#[tactic(auto, using(crate::proofs::Growing::texts))]
fn push_signals(text: &mut Vec<u8>, signals: u32) -> Result<(), AllocError>
    ensures { OnOk result (text.new.items ≡ text.old.items ++ texts_below signal signals) }
{
    for k in 0..signals {
        push_numbered(text, b"  signal n", k)?;
        text.extend_from_slice(b" : STD_ULOGIC;\n")?;
    }
    Ok(())
}

/// Puts so many instances at the end of a text.
#[tactic(auto, using(crate::proofs::Growing::texts))]
fn push_instances(text: &mut Vec<u8>, draws: &mut Draws, cells: u32) -> Result<(), AllocError>
    requires cells { cells ≤ 10_000 }
    requires none_made { draws.old.made ≡ 0 }
    ensures text { OnOk result (text.new.items ≡ text.old.items ++ texts_below (instance draws.old.seed cells) cells) }
    ensures seed { draws.new.seed ≡ draws.old.seed }
    ensures made { OnOk result (draws.new.made ≡ 2 * cells) }
{
    for k in 0..cells {
        let a = draws.below(PORTS + k);
        let b = draws.below(PORTS + k);
        push_instance(text, cells, k, a, b)?;
    }
    Ok(())
}

/// Puts an instance at the end of a text.
fn push_instance(text: &mut Vec<u8>, cells: u32, k: u32, a: u32, b: u32) -> Result<(), AllocError>
    requires { k < cells }
    ensures { OnOk result (text.new.items ≡ text.old.items ++ instance_of cells k a b) }
{
    push_numbered(text, b"  u", k)?;
    push_source(text, b" : AND2 port map (A => ", a)?;
    push_source(text, b", B => ", b)?;
    push_driven(text, cells, k)?;
    text.extend_from_slice(b");\n")?;
    Ok(())
}

/// Puts a word and what an input is associated with at the end of a text.
fn push_source(text: &mut Vec<u8>, word: &[u8], number: u32) -> Result<(), AllocError>
    ensures { OnOk result (text.new.items ≡ text.old.items ++ word.now ++ source number) }
{
    text.extend_from_slice(word)?;
    if number < PORTS {
        push_numbered(text, b"i", number)
    } else {
        push_numbered(text, b"n", number - PORTS)
    }
}

/// Puts what an instance drives, with its port, at the end of a text.
fn push_driven(text: &mut Vec<u8>, cells: u32, k: u32) -> Result<(), AllocError>
    requires { k < cells }
    ensures { OnOk result (text.new.items ≡ text.old.items ++ codes ", Y => " ++ driven cells k) }
{
    text.extend_from_slice(b", Y => ")?;
    if k + 1 == cells {
        text.extend_from_slice(b"o")
    } else {
        push_numbered(text, b"n", k)
    }
}
