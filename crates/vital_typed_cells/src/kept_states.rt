//! Laws of the states that checks and path delays keep, as functions whose contracts they are.

ghost use Rattle.std.specs.Prelude.{◌≡◌, [], All};
ghost use Rattle.std.specs.List.{IsDistinct};
ghost use Rattle.std.specs.Str.{bytes_eq};
ghost use Rattle.vital_as_read.specs.AsRead.{IsAsRead};
ghost use Rattle.vital_typed_cells.specs.Typed.{typed};
ghost use Rattle.vital_names.specs.Sites.{Cell};
ghost use Rattle.vital_typed_cells.specs.KeptStates.{kept};
ghost use Rattle.vital_variables.specs.SecondUses.{clause_13};

use crate::cell_laws::kept_variables_differ;

/// In the typed tree of a cell that is as cells are read and doesn't break L1.13, no two checks or path delays of a process keep their
/// states in one variable: a law, called for its clause.
pub fn tree_states_differ()
    ensures { (cell : Cell) → IsAsRead cell → clause_13 cell ≡ [] → All (λ p. IsDistinct bytes_eq (kept p.sections)) (typed cell).processes }
{
    kept_variables_differ();
}
