//! Laws of the grammar, as functions whose contracts they are.

ghost use Rattle.std.specs.Prelude.{◌≡◌, ℕ, List, Result};
ghost use Rattle.vital_sdf_grammar.specs.Grammar.{grammar};
ghost use Rattle.vital_ll.specs.Readings.{IsReading};
ghost use Rattle.vital_ll.specs.declared.derivation.Step.{Step};

/// Each list of kinds has one reading by the grammar: its one tree, or the one token that it is refused at: a law, called for
/// its clause.
pub fn one_reading()
    ensures { (kinds : List ℕ)
        → (outcome : Result (List Step) ℕ) × IsReading grammar kinds outcome
        × ((other : Result (List Step) ℕ) → IsReading grammar kinds other → other ≡ outcome) }
{
    vital_ll::one_reading();
}
