//! Laws of typed expressions, as functions whose contracts they are.

ghost use Rattle.std.specs.Prelude.{◌≡◌, ℕ, true, [], Option, Some, IfSome};
ghost use Rattle.vital_expr.specs.Readings.{Context, boolean_of, delay_of, level_of, text_of, time_of, vector_of};
ghost use Rattle.vital_expr.specs.Vectors.{length_of};
ghost use Rattle.vital_nodes.specs.Nodes.{Expression};
ghost use Rattle.vital_nodes.specs.declared.expr.Expr.{Expr};
ghost use Rattle.vital_typed_cells.specs.Calls.{HasTables};
ghost use Rattle.vital_typed_cells.specs.Positions.{IsScopeOf};
ghost use Rattle.vital_typed_cells.specs.ExprScopes.{Scope};
ghost use Rattle.vital_typed_cells.specs.Told.{IsTold};
ghost use Rattle.vital_typed_cells.specs.Trees.{is_sound_boolean, is_sound_delay, is_sound_level, is_sound_time, is_sound_vector};
ghost use Rattle.vital_timing.specs.declared.delay.DelayType.{DelayType};

/// Where what the names in an expression stand for is in a scope, and so are the tables of the calls in it, each tree that the
/// expression is read as is sound in that scope, whichever type is asked: a law, called for its clauses.
pub fn read_trees_are_sound()
    ensures levels { (s : Scope) (c : Context) (e : Expr) → IsScopeOf s c.position (Expression e) → HasTables s c (Expression e)
        → IfSome (level_of c e).tree (λ t. is_sound_level s t ≡ true) }
    ensures vectors { (s : Scope) (c : Context) (e : Expr) (asked : Option ℕ) → IsScopeOf s c.position (Expression e) → HasTables s c (Expression e)
        → IfSome (vector_of c asked e).tree (λ v. is_sound_vector s (length_of v) v ≡ true) }
    ensures booleans { (s : Scope) (c : Context) (e : Expr) → IsScopeOf s c.position (Expression e) → HasTables s c (Expression e)
        → IfSome (boolean_of c e).tree (λ t. is_sound_boolean s t ≡ true) }
    ensures times { (s : Scope) (c : Context) (e : Expr) → IsScopeOf s c.position (Expression e) → HasTables s c (Expression e)
        → IfSome (time_of c e).tree (λ t. is_sound_time s t ≡ true) }
    ensures delays { (s : Scope) (c : Context) (d : DelayType) (e : Expr) → IsScopeOf s c.position (Expression e) → HasTables s c (Expression e)
        → IfSome (delay_of c d e).tree (λ t. is_sound_delay s d t ≡ true) }
{}

/// A vector of which a length is asked has that length: a law, called for its clause.
pub fn read_vectors_fit()
    ensures { (c : Context) (n : ℕ) (e : Expr) → IfSome (vector_of c (Some n) e).tree (λ v. length_of v ≡ n) }
{}

/// Where no name breaks another clause, an expression of which a type is asked has a tree, or a place at which it breaks the clause
/// that speaks of its form: a law, called for its clauses.
pub fn outcomes_are_told()
    ensures levels { (c : Context) (e : Expr) → c.faults ≡ [] → IsTold (level_of c e) }
    ensures vectors { (c : Context) (e : Expr) (asked : Option ℕ) → c.faults ≡ [] → IsTold (vector_of c asked e) }
    ensures booleans { (c : Context) (e : Expr) → c.faults ≡ [] → IsTold (boolean_of c e) }
    ensures times { (c : Context) (e : Expr) → c.faults ≡ [] → IsTold (time_of c e) }
    ensures delays { (c : Context) (d : DelayType) (e : Expr) → c.faults ≡ [] → IsTold (delay_of c d e) }
    ensures texts { (c : Context) (e : Expr) → c.faults ≡ [] → IsTold (text_of c e) }
{}
