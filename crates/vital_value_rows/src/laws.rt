//! What the definitions of lexemes and grammars say of worked rows: it is proved, and nothing of it runs.

ghost use Rattle.std.specs.Prelude.{◌≡◌, ℕ, List, Result, [], ◌∷◌, codes, map, true, false};
ghost use Rattle.vital_vhdl_lexemes.specs.Bytes.{is_blank, is_graphic, is_letter, lower_case};
ghost use Rattle.vital_vhdl_lexemes.specs.Forms.{word_kind, is_basic_identifier, is_character_literal, is_extended_identifier, is_number, is_separator, is_string_literal};
ghost use Rattle.vital_lex.specs.Places.{line_of, column_of};
ghost use Rattle.vital_ll.specs.declared.derivation.Step.{Step};
ghost use Rattle.vital_ll.specs.Leads.{has_no_left_recursion};
ghost use Rattle.vital_ll.specs.Readings.{IsReading};
ghost use Rattle.vital_ll.specs.Example.{example, hidden_recursion, hidden_masks};

use vital_ll::one_reading;
use vital_vhdl_lexemes::Kind;

/// What the definitions of lexemes say of some rows.
#[tactic(auto, unfolding(vital_vhdl_lexemes::specs::Forms::word_kind))]
pub fn definitions_on_rows()
    ensures identifiers { map is_basic_identifier (codes "a_b1" ∷ codes "a__b" ∷ codes "_a" ∷ codes "a_" ∷ codes "1a" ∷ [])
        ≡ true ∷ false ∷ false ∷ false ∷ false ∷ [] }
    ensures numbers { map is_number (codes "1_0.5" ∷ codes "12" ∷ codes "1__0" ∷ codes "1." ∷ codes "1.5.2" ∷ codes "1_" ∷ [])
        ≡ true ∷ true ∷ false ∷ false ∷ false ∷ false ∷ [] }
    // `""`, `"a""b"` and `"a"b"`
    ensures strings { map is_string_literal ((34 ∷ 34 ∷ []) ∷ (34 ∷ 97 ∷ 34 ∷ 34 ∷ 98 ∷ 34 ∷ []) ∷ (34 ∷ 97 ∷ 34 ∷ 98 ∷ 34 ∷ []) ∷ [])
        ≡ true ∷ true ∷ false ∷ [] }
    // `\a\\b\`, `\\` and `\a`
    ensures extended { map is_extended_identifier ((92 ∷ 97 ∷ 92 ∷ 92 ∷ 98 ∷ 92 ∷ []) ∷ (92 ∷ 92 ∷ []) ∷ (92 ∷ 97 ∷ []) ∷ [])
        ≡ true ∷ false ∷ false ∷ [] }
    ensures characters { map is_character_literal (codes "'x'" ∷ codes "'''" ∷ codes "''" ∷ codes "'xy'" ∷ [])
        ≡ true ∷ true ∷ false ∷ false ∷ [] }
    ensures separators { map is_separator (codes " " ∷ codes "--x" ∷ codes "  " ∷ codes "-" ∷ [])
        ≡ true ∷ true ∷ false ∷ false ∷ [] }
    // 0x1F, 0x20, 0x7E, 0x7F, 0x80, 0x9F, 0xA0 and 0xFF
    ensures graphic { map is_graphic (0x1F ∷ 0x20 ∷ 0x7E ∷ 0x7F ∷ 0x80 ∷ 0x9F ∷ 0xA0 ∷ 0xFF ∷ [])
        ≡ false ∷ true ∷ true ∷ false ∷ false ∷ false ∷ true ∷ true ∷ [] }
    ensures blanks { map is_blank (0x08 ∷ 0x09 ∷ 0x0D ∷ 0x0E ∷ 0x1F ∷ 0x20 ∷ 0x21 ∷ 0xA0 ∷ [])
        ≡ false ∷ true ∷ true ∷ false ∷ false ∷ true ∷ false ∷ false ∷ [] }
    // `@AZ[`, then a grave accent, `az{`
    ensures letters { map is_letter (0x40 ∷ 0x41 ∷ 0x5A ∷ 0x5B ∷ 0x60 ∷ 0x61 ∷ 0x7A ∷ 0x7B ∷ [])
        ≡ false ∷ true ∷ true ∷ false ∷ false ∷ true ∷ true ∷ false ∷ [] }
    ensures lower { map lower_case (0x40 ∷ 0x41 ∷ 0x5A ∷ 0x5B ∷ 0xC0 ∷ []) ≡ 0x40 ∷ 0x61 ∷ 0x7A ∷ 0x5B ∷ 0xC0 ∷ [] }
    ensures words { map word_kind (codes "aBs" ∷ codes "xOR" ∷ codes "hold" ∷ codes "xorb" ∷ [])
        ≡ Kind.Abs ∷ Kind.Xor ∷ Kind.Identifier ∷ Kind.Identifier ∷ [] }
    ensures line { line_of (97 ∷ 10 ∷ 98 ∷ []) 3 ≡ 2 }
    ensures column { column_of (97 ∷ 10 ∷ 98 ∷ []) 3 ≡ 2 }
{}

/// The tables of the small grammar pass each test of the law.
pub fn example_has_one_reading()
    ensures { (tokens : List ℕ)
        → (outcome : Result (List Step) ℕ) × IsReading example tokens outcome
        × ((other : Result (List Step) ℕ) → IsReading example tokens other → other ≡ outcome) }
{
    one_reading();
}

/// text = [ "=" ] text name leads back to text past the option, so no lead ranks pass.
pub fn hidden_recursion_has_no_lead_ranks()
    ensures { (leads : List ℕ) → has_no_left_recursion hidden_recursion hidden_masks leads ≡ false }
{}
