//! Units of files, interfaces and subtypes, rule by rule as the grammar is printed.

ghost use Rattle.std.specs.Prelude.{◌≡◌};
ghost use Rattle.vital_grammar.specs.UnitRules.{unit_rules};
ghost use Rattle.vital_grammar.specs.Rows.{rules_in};

use super::Named;
use vital_ll::Sym;
use vital_vhdl_lexemes::Kind;

static RULES: [&[&[Sym]]; 24] = [
    // file = { "library" id { "," id } ";" | "use" name { "," name } ";" | entity | arch | pack | config }
    &[
        &[],
        &[
            word!(Library),
            rule!(Id),
            rule!(MoreIds),
            word!(Semicolon),
            rule!(File),
        ],
        &[
            word!(Use),
            rule!(Name),
            rule!(MoreNames),
            word!(Semicolon),
            rule!(File),
        ],
        &[rule!(Entity), rule!(File)],
        &[rule!(Arch), rule!(File)],
        &[rule!(Pack), rule!(File)],
        &[rule!(Config), rule!(File)],
    ],
    // more_ids = { "," id }
    &[&[], &[word!(Comma), rule!(Id), rule!(MoreIds)]],
    // more_names = { "," name }
    &[&[], &[word!(Comma), rule!(Name), rule!(MoreNames)]],
    // optional_id = [ id ]
    &[&[], &[rule!(Id)]],
    // entity = "entity" id "is" [ generics ] [ ports ] { decl } [ "begin" { conc } ] "end" [ "entity" ] [ id ] ";"
    &[&[
        word!(Entity),
        rule!(Id),
        word!(Is),
        rule!(Generics),
        rule!(Ports),
        rule!(Decls),
        rule!(EntityStatements),
        word!(End),
        rule!(EntityWord),
        rule!(OptionalId),
        word!(Semicolon),
    ]],
    // entity_statements = [ "begin" { conc } ]
    &[&[], &[word!(Begin), rule!(Concs)]],
    // entity_word = [ "entity" ]
    &[&[], &[word!(Entity)]],
    // generics = [ "generic" "(" iface { ";" iface } ")" ";" ]
    &[
        &[],
        &[
            word!(Generic),
            word!(LeftParenthesis),
            rule!(Iface),
            rule!(MoreIfaces),
            word!(RightParenthesis),
            word!(Semicolon),
        ],
    ],
    // ports = [ "port" "(" iface { ";" iface } ")" ";" ]
    &[
        &[],
        &[
            word!(Port),
            word!(LeftParenthesis),
            rule!(Iface),
            rule!(MoreIfaces),
            word!(RightParenthesis),
            word!(Semicolon),
        ],
    ],
    // more_ifaces = { ";" iface }
    &[&[], &[word!(Semicolon), rule!(Iface), rule!(MoreIfaces)]],
    // iface = [ "constant" | "signal" ] id { "," id } ":" [ mode ] sub [ "bus" ] [ ":=" expr ]
    &[&[
        rule!(IfaceClass),
        rule!(Id),
        rule!(MoreIds),
        word!(Colon),
        rule!(Mode),
        rule!(Sub),
        rule!(Bus),
        rule!(Default),
    ]],
    // iface_class = [ "constant" | "signal" ]
    &[&[], &[word!(Constant)], &[word!(Signal)]],
    // mode = [ "in" | "out" | "inout" | "buffer" | "linkage" ]
    &[
        &[],
        &[word!(In)],
        &[word!(Out)],
        &[word!(Inout)],
        &[word!(Buffer)],
        &[word!(Linkage)],
    ],
    // bus = [ "bus" ]
    &[&[], &[word!(Bus)]],
    // default = [ ":=" expr ]
    &[&[], &[word!(Assign), rule!(Expr)]],
    // sub = name [ "range" expr dir expr ]
    &[&[rule!(Name), rule!(Range)]],
    // range = [ "range" expr dir expr ]
    &[&[], &[word!(Range), rule!(Expr), rule!(Dir), rule!(Expr)]],
    // dir = "to" | "downto"
    &[&[word!(To)], &[word!(Downto)]],
    // arch = "architecture" id "of" id "is" { decl } "begin" { conc } "end" [ "architecture" ] [ id ] ";"
    &[&[
        word!(Architecture),
        rule!(Id),
        word!(Of),
        rule!(Id),
        word!(Is),
        rule!(Decls),
        word!(Begin),
        rule!(Concs),
        word!(End),
        rule!(ArchWord),
        rule!(OptionalId),
        word!(Semicolon),
    ]],
    // arch_word = [ "architecture" ]
    &[&[], &[word!(Architecture)]],
    // pack = "package" id "is" { decl } "end" [ "package" ] [ id ] ";"
    &[&[
        word!(Package),
        rule!(Id),
        word!(Is),
        rule!(Decls),
        word!(End),
        rule!(PackWord),
        rule!(OptionalId),
        word!(Semicolon),
    ]],
    // pack_word = [ "package" ]
    &[&[], &[word!(Package)]],
    // config = "configuration" id "of" id "is" "for" id "end" "for" ";" "end" [ "configuration" ] [ id ] ";"
    &[&[
        word!(Configuration),
        rule!(Id),
        word!(Of),
        rule!(Id),
        word!(Is),
        word!(For),
        rule!(Id),
        word!(End),
        word!(For),
        word!(Semicolon),
        word!(End),
        rule!(ConfigWord),
        rule!(OptionalId),
        word!(Semicolon),
    ]],
    // config_word = [ "configuration" ]
    &[&[], &[word!(Configuration)]],
];

#[tactic(auto, unfolding(crate::specs::UnitRules::unit_rules))]
pub(super) fn rows() -> &'static [&'static [&'static [Sym]]]
    ensures { rules_in result.now ≡ unit_rules }
{
    &RULES
}
