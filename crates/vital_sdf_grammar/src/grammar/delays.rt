//! Delays, conditions and values, rule by rule as the grammar is printed.

ghost use Rattle.std.specs.Prelude.{◌≡◌};
ghost use Rattle.vital_sdf_grammar.specs.DelayRules.{delay_rules};
ghost use Rattle.vital_sdf_grammar.specs.Rows.{rules_in};

use super::Named;
use vital_ll::Sym;
use vital_sdf_lexemes::Kind;

static RULES: [&[&[Sym]]; 16] = [
    // delays = { "(" ( ( ABSOLUTE | INCREMENT ) { "(" del ")" } | ( PATHPULSE | PATHPULSEPERCENT ) any ) ")" }
    &[
        &[],
        &[
            word!(LeftParenthesis),
            rule!(Delay),
            word!(RightParenthesis),
            rule!(Delays),
        ],
    ],
    // delay = ( ABSOLUTE | INCREMENT ) { "(" del ")" } | ( PATHPULSE | PATHPULSEPERCENT ) any
    &[
        &[word!(Absolute), rule!(Dels)],
        &[word!(Increment), rule!(Dels)],
        &[word!(PathPulse), rule!(Any)],
        &[word!(PathPulsePercent), rule!(Any)],
    ],
    // dels = { "(" del ")" }
    &[
        &[],
        &[
            word!(LeftParenthesis),
            rule!(Del),
            word!(RightParenthesis),
            rule!(Dels),
        ],
    ],
    // del = IOPATH io | PORT port vals | INTERCONNECT WORD WORD vals | ( DEVICE | NETDELAY ) any | COND [ STRING ] cond | CONDELSE "("
    //     IOPATH io ")"
    &[
        &[word!(IoPath), rule!(Io)],
        &[word!(Port), rule!(Port), rule!(Vals)],
        &[word!(Interconnect), word!(Word), word!(Word), rule!(Vals)],
        &[word!(Device), rule!(Any)],
        &[word!(NetDelay), rule!(Any)],
        &[word!(Cond), rule!(OptionalString), rule!(Cond)],
        &[
            word!(CondElse),
            word!(LeftParenthesis),
            word!(IoPath),
            rule!(Io),
            word!(RightParenthesis),
        ],
    ],
    // optional_string = [ STRING ]
    &[&[], &[word!(Text)]],
    // io = port WORD vals
    &[&[rule!(Port), word!(Word), rule!(Vals)]],
    // port = WORD | "(" ( POSEDGE | NEGEDGE ) WORD ")"
    &[
        &[word!(Word)],
        &[
            word!(LeftParenthesis),
            rule!(Edge),
            word!(Word),
            word!(RightParenthesis),
        ],
    ],
    // edge = POSEDGE | NEGEDGE
    &[&[word!(PosEdge)], &[word!(NegEdge)]],
    // cond = WORD cond | NUM cond | ":" cond | "(" ( IOPATH io ")" | inner ")" cond )
    &[
        &[word!(Word), rule!(Cond)],
        &[word!(Number), rule!(Cond)],
        &[word!(Colon), rule!(Cond)],
        &[word!(LeftParenthesis), rule!(CondRest)],
    ],
    // cond_rest = IOPATH io ")" | inner ")" cond
    &[
        &[word!(IoPath), rule!(Io), word!(RightParenthesis)],
        &[rule!(Inner), word!(RightParenthesis), rule!(Cond)],
    ],
    // inner = { WORD | NUM | ":" | "(" inner ")" }
    &[
        &[],
        &[word!(Word), rule!(Inner)],
        &[word!(Number), rule!(Inner)],
        &[word!(Colon), rule!(Inner)],
        &[
            word!(LeftParenthesis),
            rule!(Inner),
            word!(RightParenthesis),
            rule!(Inner),
        ],
    ],
    // vals = { "(" ( RETAIN any | val ) ")" }
    &[
        &[],
        &[
            word!(LeftParenthesis),
            rule!(Value),
            word!(RightParenthesis),
            rule!(Vals),
        ],
    ],
    // value = RETAIN any | val
    &[&[word!(Retain), rule!(Any)], &[rule!(Val)]],
    // val = [ NUM ] [ ":" [ NUM ] ":" [ NUM ] ]
    &[&[rule!(OptionalNumber), rule!(ValRest)]],
    // optional_number = [ NUM ]
    &[&[], &[word!(Number)]],
    // val_rest = [ ":" [ NUM ] ":" [ NUM ] ]
    &[
        &[],
        &[
            word!(Colon),
            rule!(OptionalNumber),
            word!(Colon),
            rule!(OptionalNumber),
        ],
    ],
];

#[tactic(auto, unfolding(crate::specs::DelayRules::delay_rules))]
pub(super) fn rows() -> &'static [&'static [&'static [Sym]]]
    ensures { rules_in result.now ≡ delay_rules }
{
    &RULES
}
