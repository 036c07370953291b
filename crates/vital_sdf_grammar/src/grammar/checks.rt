//! Timing checks and their ports, rule by rule as the grammar is printed.

ghost use Rattle.std.specs.Prelude.{◌≡◌};
ghost use Rattle.vital_sdf_grammar.specs.CheckRules.{check_rules};
ghost use Rattle.vital_sdf_grammar.specs.Rows.{rules_in};

use super::Named;
use vital_ll::Sym;
use vital_sdf_lexemes::Kind;

static RULES: [&[&[Sym]]; 8] = [
    // chks = { "(" chk ")" }
    &[
        &[],
        &[
            word!(LeftParenthesis),
            rule!(Chk),
            word!(RightParenthesis),
            rule!(Chks),
        ],
    ],
    // chk = ( SETUP | HOLD | RECOVERY | REMOVAL ) tp tp one | ( SETUPHOLD | RECREM ) tp tp one one | ( PERIOD | WIDTH ) tp one | ( SKEW |
    //     NOCHANGE | BIDIRECTSKEW ) any
    &[
        &[word!(Setup), rule!(Tp), rule!(Tp), rule!(One)],
        &[word!(Hold), rule!(Tp), rule!(Tp), rule!(One)],
        &[word!(Recovery), rule!(Tp), rule!(Tp), rule!(One)],
        &[word!(Removal), rule!(Tp), rule!(Tp), rule!(One)],
        &[
            word!(SetupHold),
            rule!(Tp),
            rule!(Tp),
            rule!(One),
            rule!(One),
        ],
        &[word!(RecRem), rule!(Tp), rule!(Tp), rule!(One), rule!(One)],
        &[word!(Period), rule!(Tp), rule!(One)],
        &[word!(Width), rule!(Tp), rule!(One)],
        &[word!(Skew), rule!(Any)],
        &[word!(NoChange), rule!(Any)],
        &[word!(BidirectSkew), rule!(Any)],
    ],
    // tp = WORD | "(" ( ( POSEDGE | NEGEDGE ) WORD | COND [ STRING ] titem { titem } ) ")"
    &[
        &[word!(Word)],
        &[
            word!(LeftParenthesis),
            rule!(TpRest),
            word!(RightParenthesis),
        ],
    ],
    // tp_rest = ( POSEDGE | NEGEDGE ) WORD | COND [ STRING ] titem { titem }
    &[
        &[rule!(Edge), word!(Word)],
        &[
            word!(Cond),
            rule!(OptionalString),
            rule!(Titem),
            rule!(Titems),
        ],
    ],
    // titems = { titem }
    &[&[], &[rule!(Titem), rule!(Titems)]],
    // titem = WORD | NUM | "(" ( ( POSEDGE | NEGEDGE ) WORD | inner ) ")"
    &[
        &[word!(Word)],
        &[word!(Number)],
        &[
            word!(LeftParenthesis),
            rule!(TitemRest),
            word!(RightParenthesis),
        ],
    ],
    // titem_rest = ( POSEDGE | NEGEDGE ) WORD | inner
    &[&[rule!(Edge), word!(Word)], &[rule!(Inner)]],
    // one = "(" val ")"
    &[&[word!(LeftParenthesis), rule!(Val), word!(RightParenthesis)]],
];

#[tactic(auto, unfolding(crate::specs::CheckRules::check_rules))]
pub(super) fn rows() -> &'static [&'static [&'static [Sym]]]
    ensures { rules_in result.now ≡ check_rules }
{
    &RULES
}
