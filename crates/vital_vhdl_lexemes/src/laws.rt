//! Laws of the tokens of a VHDL text.

ghost use Rattle.std.specs.Prelude.{◌≡◌, ℕ, List, Option, Some, All, slice_range};
ghost use Rattle.vital_lex.specs.Pieces.{Lexes};
ghost use Rattle.vital_lex.specs.declared.token_list.Token.{Token};
ghost use Rattle.vital_vhdl_lexemes.specs.Forms.{lexeme_kind};
ghost use Rattle.vital_vhdl_lexemes.specs.Kinds.{number};
ghost use Rattle.vital_vhdl_lexemes.specs.Vhdl.{vhdl};

use crate::kinds::Kind;

/// The bytes of each token of a text are a lexeme, and its kind is that of the token: a law, called for its clause.
pub fn tokens_are_lexemes()
    ensures { (text : List ℕ) (tokens : List Token) → Lexes vhdl text tokens
        → All (λ t. (before : Option Kind) × (kind : Kind) × (lexeme_kind before (slice_range text t.start t.end) ≡ Some kind) × (t.kind ≡ number kind)) tokens }
{}
