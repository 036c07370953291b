ghost use Rattle.std.specs.Prelude.{◌≡◌, ℕ, List, Some, Result, IsTrue};
ghost use Rattle.std.specs.Int.{bit_at};
ghost use Rattle.vital_ll.specs.declared.derivation.Step.{Step};
ghost use Rattle.vital_ll.specs.declared.grammar.Sym.{Sym};
ghost use Rattle.vital_ll.specs.Grammar.{Grammar, alternative_of};
ghost use Rattle.vital_ll.specs.Sentence.{Next};
ghost use Rattle.vital_ll.specs.Choice.{IsChoice, IsPredictive, IsWellFormed};
ghost use Rattle.vital_ll.specs.Masks.{MaskTable, are_closed, decides, choice_mask, bit_of};
ghost use Rattle.vital_ll.specs.Ranks.{are_ranked};
ghost use Rattle.vital_ll.specs.Leads.{has_no_left_recursion};
ghost use Rattle.vital_ll.specs.Readings.{IsReading};

/// Masks that are closed under the rules of a grammar hold every choice set: a law, called for its clause.
pub fn masks_hold()
    ensures { (g : Grammar) (table : MaskTable) (r a : ℕ) (t : Next) (chosen : List Sym)
        → IsTrue (are_closed g table) → alternative_of g r a ≡ Some chosen → IsChoice g r a t
        → bit_at (choice_mask table r chosen) (bit_of t) ≡ 1 }
{}

/// Where the closed masks of the alternatives of each rule do not meet, the grammar is predictive, and
/// `Rules::make` does not refuse it: a law, called for its clause.
pub fn masks_decide()
    ensures { (g : Grammar) (table : MaskTable)
        → IsTrue (are_closed g table) → IsTrue (decides g table) → IsPredictive g }
{}

/// Where each rule has an alternative that names rules of lower rank alone, each rule derives something, and
/// `Rules::make` may be called: a law, called for its clause.
pub fn ranks_derive()
    ensures { (g : Grammar) (ranks : List ℕ) → IsTrue (are_ranked g ranks) → IsWellFormed g }
{}

/// Each list of tokens has one reading: its one tree or, where it has none, the one token that it is refused at. So
/// the tokens alone say what `parse` answers, but for want of memory. What shows it is closed masks that do not meet,
/// ranks, and lead ranks: a law, called for its clause.
pub fn one_reading()
    ensures { (g : Grammar) (table : MaskTable) (ranks leads : List ℕ)
        → IsTrue (are_closed g table) → IsTrue (decides g table) → IsTrue (are_ranked g ranks)
        → IsTrue (has_no_left_recursion g table leads)
        → (tokens : List ℕ)
        → (outcome : Result (List Step) ℕ) × IsReading g tokens outcome
        × ((other : Result (List Step) ℕ) → IsReading g tokens other → other ≡ outcome) }
{}
