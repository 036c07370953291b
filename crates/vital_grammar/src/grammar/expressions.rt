//! Names, items and expressions, rule by rule as the grammar is printed.

ghost use Rattle.std.specs.Prelude.{◌≡◌};
ghost use Rattle.vital_grammar.specs.ExpressionRules.{expression_rules};
ghost use Rattle.vital_grammar.specs.Rows.{rules_in};

use super::Named;
use vital_ll::Sym;
use vital_vhdl_lexemes::Kind;

static RULES: [&[&[Sym]]; 26] = [
    // name = id suffixes
    &[&[rule!(Id), rule!(Suffixes)]],
    // suffixes = { "." ( id | "all" ) | tick ( id | "(" items ")" ) | "(" items ")" }
    &[
        &[],
        &[word!(Dot), rule!(Selected), rule!(Suffixes)],
        &[word!(Tick), rule!(Ticked), rule!(Suffixes)],
        &[
            word!(LeftParenthesis),
            rule!(Items),
            word!(RightParenthesis),
            rule!(Suffixes),
        ],
    ],
    // selected = id | "all"
    &[&[rule!(Id)], &[word!(All)]],
    // ticked = id | "(" items ")"
    &[
        &[rule!(Id)],
        &[
            word!(LeftParenthesis),
            rule!(Items),
            word!(RightParenthesis),
        ],
    ],
    // items = item { "," item }
    &[&[rule!(Item), rule!(MoreItems)]],
    // more_items = { "," item }
    &[&[], &[word!(Comma), rule!(Item), rule!(MoreItems)]],
    // item = "others" "=>" expr | "open" | expr [ dir expr ] [ "=>" ( expr | "open" ) ]
    &[
        &[word!(Others), word!(Arrow), rule!(Expr)],
        &[word!(Open)],
        &[rule!(Expr), rule!(ItemRange), rule!(ItemActual)],
    ],
    // item_range = [ dir expr ]
    &[&[], &[rule!(Dir), rule!(Expr)]],
    // item_actual = [ "=>" ( expr | "open" ) ]
    &[&[], &[word!(Arrow), rule!(Actual)]],
    // actual = expr | "open"
    &[&[rule!(Expr)], &[word!(Open)]],
    // expr = rel [ "and" rel { "and" rel } | "or" rel { "or" rel } | "xor" rel { "xor" rel } | "xnor" rel { "xnor" rel } | "nand" rel | "nor" rel ]
    &[&[rule!(Rel), rule!(ExprRest)]],
    // expr_rest = [ "and" rel { "and" rel } | .. | "nand" rel | "nor" rel ]
    &[
        &[],
        &[word!(And), rule!(Rel), rule!(MoreAnds)],
        &[word!(Or), rule!(Rel), rule!(MoreOrs)],
        &[word!(Xor), rule!(Rel), rule!(MoreXors)],
        &[word!(Xnor), rule!(Rel), rule!(MoreXnors)],
        &[word!(Nand), rule!(Rel)],
        &[word!(Nor), rule!(Rel)],
    ],
    // more_ands = { "and" rel }
    &[&[], &[word!(And), rule!(Rel), rule!(MoreAnds)]],
    // more_ors = { "or" rel }
    &[&[], &[word!(Or), rule!(Rel), rule!(MoreOrs)]],
    // more_xors = { "xor" rel }
    &[&[], &[word!(Xor), rule!(Rel), rule!(MoreXors)]],
    // more_xnors = { "xnor" rel }
    &[&[], &[word!(Xnor), rule!(Rel), rule!(MoreXnors)]],
    // rel = sum [ ( "=" | "/=" | "<" | "<=" | ">" | ">=" ) sum ]
    &[&[rule!(Sum), rule!(RelRest)]],
    // rel_rest = [ ( "=" | "/=" | "<" | "<=" | ">" | ">=" ) sum ]
    &[
        &[],
        &[word!(Equal), rule!(Sum)],
        &[word!(NotEqual), rule!(Sum)],
        &[word!(Less), rule!(Sum)],
        &[word!(LessOrEqual), rule!(Sum)],
        &[word!(Greater), rule!(Sum)],
        &[word!(GreaterOrEqual), rule!(Sum)],
    ],
    // sum = [ "+" | "-" ] term { ( "+" | "-" | "&" ) term }
    &[&[rule!(Sign), rule!(Term), rule!(MoreTerms)]],
    // sign = [ "+" | "-" ]
    &[&[], &[word!(Plus)], &[word!(Minus)]],
    // more_terms = { ( "+" | "-" | "&" ) term }
    &[
        &[],
        &[word!(Plus), rule!(Term), rule!(MoreTerms)],
        &[word!(Minus), rule!(Term), rule!(MoreTerms)],
        &[word!(Ampersand), rule!(Term), rule!(MoreTerms)],
    ],
    // term = factor { ( "*" | "/" ) factor }
    &[&[rule!(Factor), rule!(MoreFactors)]],
    // more_factors = { ( "*" | "/" ) factor }
    &[
        &[],
        &[word!(Star), rule!(Factor), rule!(MoreFactors)],
        &[word!(Slash), rule!(Factor), rule!(MoreFactors)],
    ],
    // factor = "not" prim | prim
    &[&[word!(Not), rule!(Prim)], &[rule!(Prim)]],
    // prim = number [ id ] | character | string | name | "(" items ")"
    &[
        &[word!(Number), rule!(OptionalId)],
        &[word!(CharacterLiteral)],
        &[word!(StringLiteral)],
        &[rule!(Name)],
        &[
            word!(LeftParenthesis),
            rule!(Items),
            word!(RightParenthesis),
        ],
    ],
    // id = a basic identifier that is not reserved, or an extended one
    &[&[word!(Identifier)], &[word!(ExtendedIdentifier)]],
];

#[tactic(auto, unfolding(crate::specs::ExpressionRules::expression_rules))]
pub(super) fn rows() -> &'static [&'static [&'static [Sym]]]
    ensures { rules_in result.now ≡ expression_rules }
{
    &RULES
}
