//! Files, their headers and cells, rule by rule as the grammar is printed.

ghost use Rattle.std.specs.Prelude.{◌≡◌};
ghost use Rattle.vital_sdf_grammar.specs.FileRules.{file_rules};
ghost use Rattle.vital_sdf_grammar.specs.Rows.{rules_in};

use super::Named;
use vital_ll::Sym;
use vital_sdf_lexemes::Kind;

static RULES: [&[&[Sym]]; 10] = [
    // sdf = "(" DELAYFILE { "(" ( head | CELL { "(" part ")" } ) ")" } ")"
    &[&[
        word!(LeftParenthesis),
        word!(DelayFile),
        rule!(Blocks),
        word!(RightParenthesis),
    ]],
    // blocks = { "(" ( head | CELL { "(" part ")" } ) ")" }
    &[
        &[],
        &[
            word!(LeftParenthesis),
            rule!(Block),
            word!(RightParenthesis),
            rule!(Blocks),
        ],
    ],
    // block = head | CELL { "(" part ")" }
    &[&[rule!(Head)], &[word!(Cell), rule!(Parts)]],
    // head = DIVIDER WORD | TIMESCALE ( WORD | NUM [ WORD ] ) | ( SDFVERSION | DESIGN | DATE | VENDOR | PROGRAM | VERSION | PROCESS |
    //     VOLTAGE | TEMPERATURE ) any
    &[
        &[word!(Divider), word!(Word)],
        &[word!(TimeScale), rule!(Scale)],
        &[word!(SdfVersion), rule!(Any)],
        &[word!(Design), rule!(Any)],
        &[word!(Date), rule!(Any)],
        &[word!(Vendor), rule!(Any)],
        &[word!(Program), rule!(Any)],
        &[word!(Version), rule!(Any)],
        &[word!(Process), rule!(Any)],
        &[word!(Voltage), rule!(Any)],
        &[word!(Temperature), rule!(Any)],
    ],
    // scale = WORD | NUM [ WORD ]
    &[&[word!(Word)], &[word!(Number), rule!(OptionalWord)]],
    // optional_word = [ WORD ]
    &[&[], &[word!(Word)]],
    // any = { atom | "(" any ")" }
    &[
        &[],
        &[rule!(Atom), rule!(Any)],
        &[
            word!(LeftParenthesis),
            rule!(Any),
            word!(RightParenthesis),
            rule!(Any),
        ],
    ],
    // atom = every lexeme but the parentheses
    &[
        &[word!(Colon)],
        &[word!(Text)],
        &[word!(Number)],
        &[word!(Word)],
        &[word!(DelayFile)],
        &[word!(SdfVersion)],
        &[word!(Design)],
        &[word!(Date)],
        &[word!(Vendor)],
        &[word!(Program)],
        &[word!(Version)],
        &[word!(Divider)],
        &[word!(Voltage)],
        &[word!(Process)],
        &[word!(Temperature)],
        &[word!(TimeScale)],
        &[word!(Cell)],
        &[word!(CellType)],
        &[word!(Instance)],
        &[word!(TimingEnv)],
        &[word!(Label)],
        &[word!(Delay)],
        &[word!(Absolute)],
        &[word!(Increment)],
        &[word!(PathPulse)],
        &[word!(PathPulsePercent)],
        &[word!(IoPath)],
        &[word!(Port)],
        &[word!(Interconnect)],
        &[word!(Device)],
        &[word!(NetDelay)],
        &[word!(Cond)],
        &[word!(CondElse)],
        &[word!(Retain)],
        &[word!(PosEdge)],
        &[word!(NegEdge)],
        &[word!(TimingCheck)],
        &[word!(Setup)],
        &[word!(Hold)],
        &[word!(SetupHold)],
        &[word!(Recovery)],
        &[word!(Removal)],
        &[word!(RecRem)],
        &[word!(Skew)],
        &[word!(BidirectSkew)],
        &[word!(Width)],
        &[word!(Period)],
        &[word!(NoChange)],
    ],
    // parts = { "(" part ")" }
    &[
        &[],
        &[
            word!(LeftParenthesis),
            rule!(Part),
            word!(RightParenthesis),
            rule!(Parts),
        ],
    ],
    // part = CELLTYPE STRING | INSTANCE [ WORD ] | ( TIMINGENV | LABEL ) any | DELAY { "(" ( ( ABSOLUTE | INCREMENT ) { "(" del ")" } | (
    //     PATHPULSE | PATHPULSEPERCENT ) any ) ")" } | TIMINGCHECK { "(" chk ")" }
    &[
        &[word!(CellType), word!(Text)],
        &[word!(Instance), rule!(OptionalWord)],
        &[word!(TimingEnv), rule!(Any)],
        &[word!(Label), rule!(Any)],
        &[word!(Delay), rule!(Delays)],
        &[word!(TimingCheck), rule!(Chks)],
    ],
];

#[tactic(auto, unfolding(crate::specs::FileRules::file_rules))]
pub(super) fn rows() -> &'static [&'static [&'static [Sym]]]
    ensures { rules_in result.now ≡ file_rules }
{
    &RULES
}
