//! The grammar of SDF files (after IEEE 1497), rule by rule as it is printed: `{ x }` and `[ x ]` are rules with an empty
//! alternative, and each alternative is decided by the next token.

ghost use Rattle.std.specs.Prelude.{◌≡◌, ◌++◌, IfOk, OnOk};
ghost use Rattle.vital_sdf_grammar.specs.Grammar.{grammar};
ghost use Rattle.vital_sdf_grammar.specs.Rows.{alternatives_in, rules_in};

/// A token of a kind.
macro_rules! word {
    ($kind:ident) => {
        Sym::Token(Kind::$kind as u16)
    };
}

/// What a rule derives.
macro_rules! rule {
    ($name:ident) => {
        Sym::Rule(Named::$name as u16)
    };
}

mod checks;
mod delays;
mod files;

use std::alloc::{AllocError, Global};
use vital_ll::{Alternative, Rule, RuleList, Sym};

/// The rules, in the order of their numbers.
#[derive(Clone, Copy)]
enum Named {
    Sdf,
    Blocks,
    Block,
    Head,
    Scale,
    OptionalWord,
    Any,
    Atom,
    Parts,
    Part,
    Delays,
    Delay,
    Dels,
    Del,
    OptionalString,
    Io,
    Port,
    Edge,
    Cond,
    CondRest,
    Inner,
    Vals,
    Value,
    Val,
    OptionalNumber,
    ValRest,
    Chks,
    Chk,
    Tp,
    TpRest,
    Titems,
    Titem,
    TitemRest,
    One,
}

fn rule_of(alloc: Global, alternatives: &[&[Sym]]) -> Result<Rule, AllocError>
    ensures { IfOk result (λ r. r ≡ alternatives_in alternatives.now) }
{
    let mut all = Vec::new(alloc);
    for symbols in alternatives {
        all.push(Alternative::from_vec(Vec::from_slice(alloc, symbols)?))?;
    }
    Ok(Rule::from_vec(all))
}

/// Adds the rules of these rows.
fn push_rules(alloc: Global, rules: &mut Vec<Rule>, rows: &[&[&[Sym]]]) -> Result<(), AllocError>
    ensures { OnOk result (rules.new.items ≡ rules.old.items ++ rules_in rows.now) }
{
    for row in rows {
        rules.push(rule_of(alloc, row)?)?;
    }
    Ok(())
}

/// The grammar.
pub(crate) fn grammar_rules(alloc: Global) -> Result<RuleList, AllocError>
    ensures { IfOk result (λ g. g ≡ grammar) }
{
    let mut rules = Vec::new(alloc);
    push_rules(alloc, &mut rules, files::rows())?;
    push_rules(alloc, &mut rules, delays::rows())?;
    push_rules(alloc, &mut rules, checks::rows())?;
    Ok(RuleList::from_vec(rules))
}
