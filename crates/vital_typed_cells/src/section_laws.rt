//! Laws of typed statements, as functions whose contracts they are.

ghost use Rattle.std.specs.Prelude.{◌≡◌, Bool, true, IfSome};
ghost use Rattle.vital_names.specs.declared.predeclared.Check.{Check};
ghost use Rattle.vital_sections.specs.Given.{GivenCall};
ghost use Rattle.vital_sections.specs.PathDelays.{path_delay};
ghost use Rattle.vital_sections.specs.StateTables.{state_table};
ghost use Rattle.vital_sections.specs.TimingChecks.{timing_check};
ghost use Rattle.vital_typed_cells.specs.ActualPositions.{IsActualScopeOf};
ghost use Rattle.vital_typed_cells.specs.ActualScopes.{ActualScope};
ghost use Rattle.vital_typed_cells.specs.GivenItems.{HasGivenNames, HasGivenTables};
ghost use Rattle.vital_typed_cells.specs.SoundStatements.{is_sound_check, is_sound_path_delay};
ghost use Rattle.vital_typed_cells.specs.SoundTables.{GoTogether, IsSoundStateTable};
ghost use Rattle.vital_timing.specs.declared.delay.DelayType.{DelayType};

/// Where what names stand for in a statement is in a scope, and so are what the names in the items of a call stand for and the tables of
/// the calls there, the timing check or the path delay that it is read as is sound in that scope: a law, called for its clauses.
pub fn read_statements_are_sound()
    ensures checks { (s : ActualScope) (k : GivenCall) (c : Check) → IsActualScopeOf s k.context.position → HasGivenNames s.names k → HasGivenTables s.names k
        → IfSome (timing_check k c) (λ t. is_sound_check s t ≡ true) }
    ensures path_delays { (s : ActualScope) (k : GivenCall) (d : DelayType) → IsActualScopeOf s k.context.position → HasGivenNames s.names k → HasGivenTables s.names k
        → IfSome (path_delay k d) (λ t. is_sound_path_delay s t ≡ true) }
{}

/// Where no name breaks another clause, the actuals of a call of VitalStateTable are of their forms and go with one another, and a vector
/// is given for its result only where the number of states is a formal, the state table that it is read as is sound in a scope that
/// has what its names stand for and the tables of the calls in it, and the columns of its table are its inputs, states and results:
/// a law, called for its clause.
pub fn read_state_tables_fit()
    ensures { (s : ActualScope) (k : GivenCall) (b : Bool) → IsActualScopeOf s k.context.position → HasGivenNames s.names k → HasGivenTables s.names k
        → GoTogether k b
        → IfSome (state_table k) (IsSoundStateTable s.names k) }
{}
