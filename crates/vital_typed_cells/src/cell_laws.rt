//! Laws of cells, as functions whose contracts they are.

ghost use Rattle.std.specs.Prelude.{◌≡◌, [], ◌++◌, All, map};
ghost use Rattle.std.specs.List.{IsDistinct};
ghost use Rattle.std.specs.Str.{bytes_eq};
ghost use Rattle.vital_as_read.specs.AsRead.{IsAsRead};
ghost use Rattle.vital_declaration_clauses.specs.Clauses.{clause_17};
ghost use Rattle.vital_drivers.specs.Clauses.{clause_6, clause_12};
ghost use Rattle.vital_names.specs.Declarations.{body_of, declared_in, interface_of};
ghost use Rattle.vital_names.specs.Sites.{Cell};
ghost use Rattle.vital_typed_cells.specs.Drivers.{ports_driven, wires};
ghost use Rattle.vital_typed_cells.specs.Kept.{names_kept};
ghost use Rattle.vital_typed_cells.specs.Names.{names_of};
ghost use Rattle.vital_statements.specs.Clauses.{clause_5};
ghost use Rattle.vital_uses.specs.Statements.{processes};
ghost use Rattle.vital_variables.specs.SecondUses.{clause_13};

use vital_nodes::walked_in_preorder;

/// In a cell that breaks neither L1.5 nor L1.6, no two wire delays drive one signal, and no two have one port: a law, called for its
/// clauses.
pub fn wires_are_apart()
    ensures signals { (cell : Cell) → clause_5 cell ≡ [] → clause_6 cell ≡ [] → IsDistinct bytes_eq (map (λ w. w.0.name) (wires cell)) }
    ensures ports { (cell : Cell) → clause_5 cell ≡ [] → clause_6 cell ≡ [] → IsDistinct bytes_eq (map (λ w. w.1.name) (wires cell)) }
{
    walked_in_preorder();
}

/// In a cell that doesn't break L1.12, no two path delays drive one port: a law, called for its clause.
pub fn ports_are_driven_once()
    ensures { (cell : Cell) → clause_12 cell ≡ [] → IsDistinct bytes_eq (ports_driven cell) }
{}

/// In a cell that is as cells are read and doesn't break L1.13, no two calls of a process keep their states in one variable: a law, called for
/// its clause.
pub fn kept_variables_differ()
    ensures { (cell : Cell) → IsAsRead cell → clause_13 cell ≡ [] → All (λ p. IsDistinct bytes_eq (names_kept cell p)) (processes cell.arch) }
{
    walked_in_preorder();
}

/// In a cell that is as cells are read and doesn't break L1.17, the names of what the architecture declares, and of the generics and ports,
/// differ; and so do those with the names of what one of its processes declares: a law, called for its clauses.
pub fn names_differ()
    ensures cell { (cell : Cell) → IsAsRead cell → clause_17 cell ≡ [] → IsDistinct bytes_eq (names_of (body_of cell.arch ++ interface_of cell.entity)) }
    ensures processes { (cell : Cell) → IsAsRead cell → clause_17 cell ≡ []
        → All (λ p. IsDistinct bytes_eq (names_of (declared_in p.declarations ++ (body_of cell.arch ++ interface_of cell.entity)))) (processes cell.arch) }
{}
