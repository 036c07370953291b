//! Laws of reading, as functions whose contracts they are.

ghost use Rattle.std.specs.Prelude.{◌≡◌, ℕ, List, Result};
ghost use Rattle.vital_sdf.specs.Outcomes.{IsReading};
ghost use Rattle.vital_sdf.specs.declared.group.SdfFile.{SdfFile};
ghost use Rattle.vital_sdf.specs.declared.read.SdfError.{SdfError};

use vital_lex::one_outcome;
use vital_sdf_lexemes::Sdf;

/// Each text has one reading: what it says, its first fault as a text, the place where the grammar refuses it, or the first
/// keyword that says what it may not. So what `read_sdf` answers has its cause, and each cause its answer: a law, called for its
/// clause.
pub fn one_reading()
    ensures { (file : ℕ) (text : List ℕ) (room : ℕ)
        → (outcome : Result SdfFile SdfError) × IsReading file text room outcome
        × ((other : Result SdfFile SdfError) → IsReading file text room other → other ≡ outcome) }
{
    one_outcome::<Sdf>();
    vital_sdf_grammar::one_reading();
}
