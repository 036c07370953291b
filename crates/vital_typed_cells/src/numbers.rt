//! Laws of the numbers and wires in typed trees, as functions whose contracts they are.

ghost use Rattle.std.specs.Prelude.{◌≡◌, true, [], ◌+◌, ◌<◌, ◌≤◌, length, All, map, None};
ghost use Rattle.std.specs.List.{IsDistinct, list_any};
ghost use Rattle.std.specs.Str.{bytes_eq};
ghost use Rattle.vital_drivers.specs.Clauses.{clause_6};
ghost use Rattle.vital_level0.specs.Breaches.{IsFirst};
ghost use Rattle.vital_names.specs.Sites.{Cell};
ghost use Rattle.vital_statements.specs.Clauses.{clause_5};
ghost use Rattle.vital_typed_cells.specs.Typed.{typed};

use crate::cell_laws::wires_are_apart;
use vital_nodes::walked_in_preorder;

/// In the sensitivity lists of a typed tree stand numbers of its bits alone: a law, called for its clause.
pub fn bits_are_there()
    ensures { (cell : Cell) → All (λ p. All (λ n. n < length (typed cell).ports + length (typed cell).signals) p.sensitivity) (typed cell).processes }
{}

/// At most all processes of a typed tree stand before its wires: a law, called for its clause.
pub fn processes_stand_before_wires()
    ensures { (cell : Cell) → (typed cell).processes_before_wires ≤ length (typed cell).processes }
{
    walked_in_preorder();
}

/// In the typed tree of a cell that breaks neither L1.5 nor L1.6, no two wires drive one signal, and no two have one port: a law, called for
/// its clauses.
pub fn tree_wires_are_apart()
    ensures signals { (cell : Cell) → clause_5 cell ≡ [] → clause_6 cell ≡ [] → IsDistinct bytes_eq (map (λ w. w.signal) (typed cell).wires) }
    ensures ports { (cell : Cell) → clause_5 cell ≡ [] → clause_6 cell ≡ [] → IsDistinct bytes_eq (map (λ w. w.port) (typed cell).wires) }
{
    wires_are_apart();
}

/// In a cell whose entity breaks nothing of Level 0, the delay of each wire of the typed tree is one of its timing generics: a law, called for
/// its clause.
pub fn wires_have_generics()
    ensures { (cell : Cell) → IsFirst cell.entity None
        → All (λ w. list_any (λ g. bytes_eq g.name w.generic) (typed cell).generics ≡ true) (typed cell).wires }
{}
