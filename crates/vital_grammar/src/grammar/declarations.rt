//! Declarations, rule by rule as the grammar is printed.

ghost use Rattle.std.specs.Prelude.{◌≡◌};
ghost use Rattle.vital_grammar.specs.DeclarationRules.{declaration_rules};
ghost use Rattle.vital_grammar.specs.Rows.{rules_in};

use super::Named;
use vital_ll::Sym;
use vital_vhdl_lexemes::Kind;

static RULES: [&[&[Sym]]; 7] = [
    // decls = { decl }
    &[&[], &[rule!(Decl), rule!(Decls)]],
    // decl = an attribute, a constant, a signal, a variable, an alias or a component
    &[
        &[word!(Attribute), rule!(Id), rule!(AttributeRest)],
        &[
            word!(Constant),
            rule!(Id),
            rule!(MoreIds),
            word!(Colon),
            rule!(Sub),
            rule!(Default),
            word!(Semicolon),
        ],
        &[
            word!(Signal),
            rule!(Id),
            rule!(MoreIds),
            word!(Colon),
            rule!(Sub),
            rule!(Default),
            word!(Semicolon),
        ],
        &[
            word!(Variable),
            rule!(Id),
            rule!(MoreIds),
            word!(Colon),
            rule!(Sub),
            rule!(Default),
            word!(Semicolon),
        ],
        &[
            word!(Alias),
            rule!(Id),
            rule!(AliasSub),
            word!(Is),
            rule!(Name),
            word!(Semicolon),
        ],
        &[
            word!(Component),
            rule!(Id),
            rule!(OptionalIs),
            rule!(Generics),
            rule!(Ports),
            word!(End),
            word!(Component),
            rule!(OptionalId),
            word!(Semicolon),
        ],
    ],
    // attribute_rest = ":" name ";" | "of" ( id | "all" | "others" ) ":" class "is" expr ";"
    &[
        &[word!(Colon), rule!(Name), word!(Semicolon)],
        &[
            word!(Of),
            rule!(Designator),
            word!(Colon),
            rule!(Class),
            word!(Is),
            rule!(Expr),
            word!(Semicolon),
        ],
    ],
    // designator = id | "all" | "others"
    &[&[rule!(Id)], &[word!(All)], &[word!(Others)]],
    // class = "entity" | "architecture" | "component" | "signal" | "label"
    &[
        &[word!(Entity)],
        &[word!(Architecture)],
        &[word!(Component)],
        &[word!(Signal)],
        &[word!(Label)],
    ],
    // alias_sub = [ ":" sub ]
    &[&[], &[word!(Colon), rule!(Sub)]],
    // optional_is = [ "is" ]
    &[&[], &[word!(Is)]],
];

#[tactic(auto, unfolding(crate::specs::DeclarationRules::declaration_rules))]
pub(super) fn rows() -> &'static [&'static [&'static [Sym]]]
    ensures { rules_in result.now ≡ declaration_rules }
{
    &RULES
}
