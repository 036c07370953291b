//! Laws of typed actuals, as functions whose contracts they are.

ghost use Rattle.std.specs.Prelude.{◌≡◌, true, [], IfSome};
ghost use Rattle.vital_actuals.specs.Actuals.{actual_of, target_of};
ghost use Rattle.vital_calls.specs.declared.actual_form.ActualForm.{ActualForm};
ghost use Rattle.vital_expr.specs.Readings.{Context};
ghost use Rattle.vital_nodes.specs.Nodes as nodes;
ghost use Rattle.vital_nodes.specs.declared.expr.Item.{Item};
ghost use Rattle.vital_nodes.specs.declared.expr.Reference.{Reference};
ghost use Rattle.vital_typed_cells.specs.ActualPositions.{IsActualScopeOf};
ghost use Rattle.vital_typed_cells.specs.ActualScopes.{ActualScope};
ghost use Rattle.vital_typed_cells.specs.SoundActuals.{is_sound_actual, is_sound_target};
ghost use Rattle.vital_typed_cells.specs.Calls.{HasTables};
ghost use Rattle.vital_typed_cells.specs.Positions.{IsScopeOf};
ghost use Rattle.vital_typed_cells.specs.Told.{IsTold};

/// Where what names stand for in a statement is in a scope, and so are what the names in an item stand for and the tables of the calls
/// in it, what the item gives is sound in that scope, whichever form is asked of it; and so is what a name is as a target, where what it
/// stands for is there: a law, called for its clauses.
pub fn read_actuals_are_sound()
    ensures actuals { (s : ActualScope) (c : Context) (f : ActualForm) (i : Item) → IsActualScopeOf s c.position → IsScopeOf s.names c.position (nodes.Item i)
        → HasTables s.names c (nodes.Item i)
        → IfSome (actual_of c f i).tree (λ a. is_sound_actual s f a ≡ true) }
    ensures targets { (s : ActualScope) (c : Context) (r : Reference) → IsActualScopeOf s c.position → IsScopeOf s.names c.position (nodes.Name r)
        → IfSome (target_of c r).tree (λ t. is_sound_target s.names t ≡ true) }
{}

/// Where no name breaks another clause, an item of which a form is asked has a tree, or a place at which it breaks the clause that
/// speaks of its form, and so has a target: a law, called for its clauses.
pub fn actuals_are_told()
    ensures actuals { (c : Context) (f : ActualForm) (i : Item) → c.faults ≡ [] → IsTold (actual_of c f i) }
    ensures targets { (c : Context) (r : Reference) → c.faults ≡ [] → IsTold (target_of c r) }
{}
