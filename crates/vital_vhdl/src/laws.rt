//! Laws of reading, as functions whose contracts they are.

ghost use Rattle.std.specs.Prelude.{◌≡◌, ℕ, List, Result, All, AllPairs};
ghost use Rattle.vital_nodes.specs.declared.unit.Role.{Role};
ghost use Rattle.vital_nodes.specs.declared.unit.Units.{Units};
ghost use Rattle.vital_shapes.specs.Standing.{IsNotAfter, places_of_units};
ghost use Rattle.vital_vhdl.specs.Outcomes.{IsReading, IsUnitsOf};
ghost use Rattle.vital_vhdl.specs.declared.read.UnitError.{UnitError};

use vital_lex::{one_outcome, tokens_rise};
use vital_shapes::{file_is_read, nodes_stand};
use vital_vhdl_lexemes::Vhdl;

/// Each text has one reading: its units, its first fault as a text, or the place where the grammar refuses it. So what
/// `read_units` answers has its cause, and each cause its answer: a law, called for its clause.
pub fn one_reading()
    ensures { (file : ℕ) (role : Role) (text : List ℕ) (room : ℕ)
        → (outcome : Result Units UnitError) × IsReading file role text room outcome
        × ((other : Result Units UnitError) → IsReading file role text room other → other ≡ outcome) }
{
    one_outcome::<Vhdl>();
    vital_grammar::one_reading();
    file_is_read();
}

/// What `read_units` reads of a file stands in that file, and in the order of the text: of each unit where it begins, the
/// identifiers in its head, and its nodes in preorder. None of these places comes before an earlier one: a law, called for its
/// clauses.
pub fn units_stand()
    ensures in_file { (file : ℕ) (role : Role) (text : List ℕ) (room : ℕ) (read : Units)
        → IsUnitsOf file role text room read → All (λ p. p.file ≡ file) (places_of_units read.units) }
    ensures in_order { (file : ℕ) (role : Role) (text : List ℕ) (room : ℕ) (read : Units)
        → IsUnitsOf file role text room read → AllPairs IsNotAfter (places_of_units read.units) }
{
    tokens_rise::<Vhdl>();
    nodes_stand();
}
