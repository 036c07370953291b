//! Laws of the names that typed trees declare, as functions whose contracts they are.

ghost use Rattle.std.specs.Prelude.{◌≡◌, [], ◌++◌, All};
ghost use Rattle.std.specs.List.{IsDistinct};
ghost use Rattle.std.specs.Str.{bytes_eq};
ghost use Rattle.vital_as_read.specs.AsRead.{IsAsRead};
ghost use Rattle.vital_typed_cells.specs.Typed.{typed};
ghost use Rattle.vital_declaration_clauses.specs.Clauses.{clause_17};
ghost use Rattle.vital_names.specs.Sites.{Cell};
ghost use Rattle.vital_nodes.specs.IdentifierNames.{IsIdentifierName};
ghost use Rattle.vital_typed_cells.specs.TreeNames.{names_of_cell, names_of_process};

use crate::cell_laws::names_differ;

/// In a cell that is as cells are read and doesn't break L1.17, the names that its typed tree declares differ; and so do those that one of
/// its processes declares, also from those of the cell: a law, called for its clauses.
pub fn tree_names_differ()
    ensures cell { (cell : Cell) → IsAsRead cell → clause_17 cell ≡ [] → IsDistinct bytes_eq (names_of_cell (typed cell)) }
    ensures processes { (cell : Cell) → IsAsRead cell → clause_17 cell ≡ []
        → All (λ p. IsDistinct bytes_eq (names_of_process p ++ names_of_cell (typed cell))) (typed cell).processes }
{
    names_differ();
}

/// In a cell that is as cells are read, the names that its typed tree declares are those of identifiers: a law, called for its clauses.
pub fn tree_names_are_formed()
    ensures cell { (cell : Cell) → IsAsRead cell → All IsIdentifierName (names_of_cell (typed cell)) }
    ensures processes { (cell : Cell) → IsAsRead cell → All (λ p. All IsIdentifierName (names_of_process p)) (typed cell).processes }
{}
