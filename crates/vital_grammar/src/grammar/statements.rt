//! Statements, rule by rule as the grammar is printed.

ghost use Rattle.std.specs.Prelude.{◌≡◌};
ghost use Rattle.vital_grammar.specs.StatementRules.{statement_rules};
ghost use Rattle.vital_grammar.specs.Rows.{rules_in};

use super::Named;
use vital_ll::Sym;
use vital_vhdl_lexemes::Kind;

static RULES: [&[&[Sym]]; 16] = [
    // concs = { conc }
    &[&[], &[rule!(Conc), rule!(Concs)]],
    // conc = process | id ( ":" labelled | suffixes ( ";" | "<=" expr [ "after" expr ] ";" ) )
    &[&[rule!(Process)], &[rule!(Id), rule!(ConcRest)]],
    // conc_rest = ":" labelled | suffixes ( ";" | "<=" expr [ "after" expr ] ";" )
    &[
        &[word!(Colon), rule!(Labelled)],
        &[rule!(Suffixes), rule!(ConcEnd)],
    ],
    // conc_end = ";" | "<=" expr [ "after" expr ] ";"
    &[
        &[word!(Semicolon)],
        &[
            word!(LessOrEqual),
            rule!(Expr),
            rule!(Delay),
            word!(Semicolon),
        ],
    ],
    // delay = [ "after" expr ]
    &[&[], &[word!(After), rule!(Expr)]],
    // labelled = process | "component" name maps ";" | name maps ";" | "block" [ "is" ] { decl } "begin" { conc } "end" "block" [ id ] ";"
    &[
        &[rule!(Process)],
        &[word!(Component), rule!(Name), rule!(Maps), word!(Semicolon)],
        &[rule!(Name), rule!(Maps), word!(Semicolon)],
        &[
            word!(Block),
            rule!(OptionalIs),
            rule!(Decls),
            word!(Begin),
            rule!(Concs),
            word!(End),
            word!(Block),
            rule!(OptionalId),
            word!(Semicolon),
        ],
    ],
    // maps = [ "generic" "map" "(" items ")" ] [ "port" "map" "(" items ")" ]
    &[&[rule!(GenericMap), rule!(PortMap)]],
    // generic_map = [ "generic" "map" "(" items ")" ]
    &[
        &[],
        &[
            word!(Generic),
            word!(Map),
            word!(LeftParenthesis),
            rule!(Items),
            word!(RightParenthesis),
        ],
    ],
    // port_map = [ "port" "map" "(" items ")" ]
    &[
        &[],
        &[
            word!(Port),
            word!(Map),
            word!(LeftParenthesis),
            rule!(Items),
            word!(RightParenthesis),
        ],
    ],
    // process = "process" [ "(" name { "," name } ")" ] [ "is" ] { decl } "begin" { seq } "end" "process" [ id ] ";"
    &[&[
        word!(Process),
        rule!(Sensitivity),
        rule!(OptionalIs),
        rule!(Decls),
        word!(Begin),
        rule!(Seqs),
        word!(End),
        word!(Process),
        rule!(OptionalId),
        word!(Semicolon),
    ]],
    // sensitivity = [ "(" name { "," name } ")" ]
    &[
        &[],
        &[
            word!(LeftParenthesis),
            rule!(Name),
            rule!(MoreNames),
            word!(RightParenthesis),
        ],
    ],
    // seqs = { seq }
    &[&[], &[rule!(Seq), rule!(Seqs)]],
    // seq = id suffixes ( .. ) | "if" expr "then" { seq } { "elsif" expr "then" { seq } } [ "else" { seq } ] "end" "if" ";" | "null" ";"
    &[
        &[rule!(Name), rule!(SeqEnd)],
        &[
            word!(If),
            rule!(Expr),
            word!(Then),
            rule!(Seqs),
            rule!(Elsifs),
            rule!(ElsePart),
            word!(End),
            word!(If),
            word!(Semicolon),
        ],
        &[word!(Null), word!(Semicolon)],
    ],
    // seq_end = ":=" expr ";" | "<=" expr [ "after" expr ] ";" | ";"
    &[
        &[word!(Assign), rule!(Expr), word!(Semicolon)],
        &[
            word!(LessOrEqual),
            rule!(Expr),
            rule!(Delay),
            word!(Semicolon),
        ],
        &[word!(Semicolon)],
    ],
    // elsifs = { "elsif" expr "then" { seq } }
    &[
        &[],
        &[
            word!(Elsif),
            rule!(Expr),
            word!(Then),
            rule!(Seqs),
            rule!(Elsifs),
        ],
    ],
    // else_part = [ "else" { seq } ]
    &[&[], &[word!(Else), rule!(Seqs)]],
];

#[tactic(auto, unfolding(crate::specs::StatementRules::statement_rules))]
pub(super) fn rows() -> &'static [&'static [&'static [Sym]]]
    ensures { rules_in result.now ≡ statement_rules }
{
    &RULES
}
