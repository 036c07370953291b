//! Laws of typed statements, as functions whose contracts they are.

ghost use Rattle.std.specs.Prelude.{◌≡◌, true, List, [], IfSome};
ghost use Rattle.vital_base.specs.declared.place.Place.{Place};
ghost use Rattle.vital_expr.specs.Readings.{Context};
ghost use Rattle.vital_names.specs.Sites.{Cell};
ghost use Rattle.vital_nodes.specs.Nodes.{Expression, Name};
ghost use Rattle.vital_nodes.specs.declared.expr.Reference.{Reference};
ghost use Rattle.vital_nodes.specs.declared.stmt.Process.{Process};
ghost use Rattle.vital_nodes.specs.declared.stmt.Stmt.{Stmt};
ghost use Rattle.vital_nodes.specs.declared.stmt.VariableAssignment.{VariableAssignment};
ghost use Rattle.vital_typed_cells.specs.ActualPositions.{IsActualScopeOf};
ghost use Rattle.vital_typed_cells.specs.ActualScopes.{ActualScope};
ghost use Rattle.vital_typed_cells.specs.Calls.{HasTables};
ghost use Rattle.vital_typed_cells.specs.Positions.{IsScopeOf};
ghost use Rattle.vital_typed_cells.specs.Told.{IsTold};
ghost use Rattle.vital_typed_cells.specs.SoundAssignments.{is_sound_assignment};
ghost use Rattle.vital_typed_statements.specs.Statements.{assignment, concurrent_call, statement_of};

/// Where what names stand for in a statement is in a scope, and so are what the names in an assignment stand for and the tables of the
/// calls in its value, the assignment is sound in that scope: a law, called for its clause.
pub fn read_assignments_are_sound()
    ensures { (s : ActualScope) (c : Context) (a : VariableAssignment) → IsActualScopeOf s c.position → IsScopeOf s.names c.position (Name a.target)
        → IsScopeOf s.names c.position (Expression a.value) → HasTables s.names c (Expression a.value)
        → IfSome (assignment c a).tree (λ t. is_sound_assignment s.names t ≡ true) }
{}

/// Where no name breaks another clause, a statement has a tree, or a place at which it breaks the clause that speaks of the forms of its
/// parts: a law, called for its clauses.
pub fn statements_are_told()
    ensures statements { (cell : Cell) (p : Process) (s : Stmt) → IsTold (statement_of cell p [] s) }
    ensures calls { (cell : Cell) (r : Reference) → IsTold (concurrent_call cell [] r) }
{}
