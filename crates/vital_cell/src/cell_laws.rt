//! Laws of compiled programs, as functions whose contracts they are.

ghost use Rattle.vital_cell.specs.Compiled.{CompiledStands};

use crate::laws::{kinds_suit, slots_begin, steps_keep_kinds, steps_stand};

/// A program that is compiled from a sound cell stands for it: a law, called for its clause.
pub(crate) fn compiled_stands()
    ensures { CompiledStands }
{
    steps_stand();
    steps_keep_kinds();
    kinds_suit();
    slots_begin();
}
